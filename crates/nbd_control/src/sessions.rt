//! The answer to `sessions`: a line for each.

ghost use Rattle.std.specs.Prelude.{◌≡◌, ◌++◌, OnOk, OnErr};
ghost use Rattle.std.specs.List.{flat_map};
ghost use Rattle.nbd_control.specs.Sessions.{count_text, session_line, sessions_text, traffic_text, who_text};

use crate::figures::put_seconds;
use crate::quoting::put_basic;
use nbd_base::NoMemory;
use nbd_text::or_no_memory;
use std::alloc::Allocator;
use std::io::Write;

/// What is told of a session.
#[derive(Clone, Copy, Debug, PartialEq, Eq)]
pub struct SessionLine<'a> {
    /// The name of its export.
    pub export: &'a [u8],
    /// The session's, of its export.
    pub number: u64,
    /// Of the client, as `127.0.0.1:50022`, or `unix`.
    pub address: &'a [u8],
    /// Since the session was opened, in nanoseconds.
    pub connected: u64,
    /// That were handed in since then.
    pub requests: u64,
    /// Those of them whose replies aren't taken to be sent yet.
    pub outstanding: u64,
    /// The data of READs that aren't written to the client yet, and of WRITEs that wait.
    pub under_way_bytes: u64,
}

/// Puts the answer to `sessions` behind a text. Where memory is refused, the text stays.
pub fn write_sessions<A: Allocator + Copy>(
    alloc: A,
    sessions: &[SessionLine<'_>],
    text: &mut Vec<u8, A>,
) -> Result<(), NoMemory>
    ensures ok { OnOk result (text.new.items ≡ text.old.items ++ sessions_text sessions.now) }
    ensures err { OnErr result (text.new.items ≡ text.old.items) }
{
    let mut answer = Vec::new(alloc);
    put_sessions(sessions, &mut answer)?;
    text.extend_from_slice(&answer)?;
    Ok(())
}

fn put_sessions<A: Allocator>(
    sessions: &[SessionLine<'_>],
    text: &mut Vec<u8, A>,
) -> Result<(), NoMemory>
    ensures { OnOk result (text.new.items ≡ text.old.items ++ sessions_text sessions.now) }
{
    put_session_lines(sessions, text)?;
    text.extend_from_slice(b"\n")?;
    Ok(())
}

fn put_session_lines<A: Allocator>(
    sessions: &[SessionLine<'_>],
    text: &mut Vec<u8, A>,
) -> Result<(), NoMemory>
    ensures { OnOk result (text.new.items ≡ text.old.items ++ flat_map session_line sessions.now) }
{
    for session in sessions {
        put_session(session, text)?;
    }
    Ok(())
}

/// Puts the line of a session behind a text.
#[tactic(auto, unfolding(crate::specs::Sessions::session_line))]
fn put_session<A: Allocator>(
    session: &SessionLine<'_>,
    text: &mut Vec<u8, A>,
) -> Result<(), NoMemory>
    ensures { OnOk result (text.new.items ≡ text.old.items ++ session_line session.now) }
{
    put_who(session, text)?;
    text.extend_from_slice(b" connected_seconds=")?;
    put_seconds(session.connected, text)?;
    put_traffic(session, text)?;
    Ok(())
}

/// Puts behind a text of which export a session is, its number, and where its client is.
fn put_who<A: Allocator>(session: &SessionLine<'_>, text: &mut Vec<u8, A>) -> Result<(), NoMemory>
    ensures { OnOk result (text.new.items ≡ text.old.items ++ who_text session.now) }
{
    let number = session.number;
    text.extend_from_slice(b"session export=")?;
    put_basic(session.export, text)?;
    or_no_memory(write!(text, " number={number} address="))?;
    put_basic(session.address, text)?;
    Ok(())
}

/// Puts what a session did and has at hand behind a text, and ends the line.
fn put_traffic<A: Allocator>(
    session: &SessionLine<'_>,
    text: &mut Vec<u8, A>,
) -> Result<(), NoMemory>
    ensures { OnOk result (text.new.items ≡ text.old.items ++ traffic_text session.now) }
{
    put_count("requests_total", session.requests, text)?;
    put_count("outstanding", session.outstanding, text)?;
    put_count("under_way_bytes", session.under_way_bytes, text)?;
    text.extend_from_slice(b"\n")?;
    Ok(())
}

/// Puts a field behind a text: a space, its key, and a number.
fn put_count<A: Allocator>(key: &str, count: u64, text: &mut Vec<u8, A>) -> Result<(), NoMemory>
    ensures { OnOk result (text.new.items ≡ text.old.items ++ count_text key.now count) }
{
    or_no_memory(write!(text, " {key}={count}"))
}
