//! The numbers of the serving code, and the rules over values that its threads follow. `specs/Policy.antt` says each rule.
#![tactic(auto)]

ghost use Rattle.std.specs.Prelude.{◌≡◌, ◌+◌, ◌-◌, ◌*◌, ◌<◌, ◌≤◌, ◌^◌, min, option_map};
ghost use Rattle.std.specs.Duration.{as_nanos};
ghost use Rattle.nbd_policy.specs.Policy.{accept_may_pass_by, answers_read_by, asks_for_turn_by, backlog_by, batch_by, bell_by, cost_by, data_by, ends_hold_by, handed_in_by, handshake_wait_by, has_more_by, held_back_patience_by, goes_straight_by, holds_back_by, is_alone_by, is_due_by, is_forgotten_by, is_network_fault_by, is_shortage_by, is_stalled_by, is_uneven_by, is_zero_by, keeps_by, keeps_up_by, limited_by, load_by, load_of_data_by, looks_behind_by, looks_in_a_row_by, makes_room_by, next_skip_by, patience_by, performs_by, reads_ahead_by, rest_by, sends_early_by, sent_by, short_pieces_by, size_by, span_by, spares_by, still_defers_by, still_retunes_by, still_waits_for_line_by, suits_reader_by, waiting_by, wakes_worker_by, carried_by, yields_by, yields_behind_look_by};

mod habit;
mod long_readers;
mod ready_replies;
mod request_size;
mod waiting;
mod write_pace;

pub use habit::{Expectation, Habit, is_old};
pub use long_readers::LongReaders;
use nbd_wire::RequestHead;
use nbd_wire::protocol::{READ, TRIM, WRITE, WRITE_ZEROES};
pub use ready_replies::{
    READY_BYTES, READY_REPLIES, READY_TEXTS, makes_another_ready, makes_ready,
};
pub use request_size::{Load, RequestSize};
use std::time::Duration;
use tag_clock::Moment;
pub use waiting::{Rest, Waiting};
pub use write_pace::WritePace;

// ---- Connections, and the threads that serve them

/// How many connections may be there at a time: twice as many as all sessions of 64 exports. One more is dropped.
pub const CONNECTIONS: u64 = 8_192;

/// How many threads of one listener wait for a client at most. One more ends.
pub const IDLE_THREADS: usize = 64;

/// How many milliseconds a listener waits before it tries again to accept, where the system is short of something.
pub const RETRY_MS: u64 = 10;

/// How many descriptors the server has besides those of connections, at most: its three files, two for each of three listeners, one that
/// the system keeps for whom each of these accepts next, and eight clients of the control socket.
pub const OWN_DESCRIPTORS: u64 = 20;

/// The largest block, in bytes, that the C library is to keep for itself once it was given back. Its own bound on such
/// blocks is 32 MiB, with what it adds to them (mallopt(3), M_MMAP_THRESHOLD).
pub const KEPT_BLOCK_BYTES: usize = 33_550_000;

/// How many bytes a session's WRITEs bring before room is made for as many more. With a quarter or four times as many it was no
/// better (docs/notes/tries.md).
pub const ROOM_BYTES: usize = 4_194_304;

/// How many bells the sessions of one export have: as many as may be open at a time.
pub const SESSION_BELLS: u64 = 64;

/// How many sessions a thread notes under one hold, to wake them behind it; it wakes those beyond these at once.
pub const NOTED_SESSIONS: usize = 16;

/// The last moment that there is, in nanoseconds: some 146 years.
pub const LAST_MOMENT_NS: u64 = (1 << 62) - 1;

// ---- Clients that are silent

/// How many milliseconds a client has for each option of its handshake, and for its flags. It asks once and waits
/// for the answer; how long that takes over slow networks wasn't looked at.
pub const OPTION_MS: u64 = 10_000;

/// How many milliseconds it has for the whole handshake: as many as for six options. 1,000 of almost `OPTION_MS` each would be hours.
pub const HANDSHAKE_MS: u64 = 60_000;

/// How many milliseconds a reply waits for a client that reads nothing, before its session ends. A client that is stopped for a
/// moment and goes on, as a machine that is moved, is to keep its session; for how long such are stopped wasn't looked at.
pub const STALLED_WRITE_MS: u64 = 60_000;

/// After how many seconds without a byte a connection over TCP is probed, how many lie between two probes, and how many
/// unanswered ones end it (tcp(7)): two minutes behind its last byte a client that vanished leaves its place.
pub const KEEPALIVE_IDLE_S: u8 = 60;

pub const KEEPALIVE_INTERVAL_S: u8 = 10;

pub const KEEPALIVE_PROBES: u8 = 6;

// ---- The control socket

/// How many clients of the control socket are served at a time. One more is dropped.
pub const CONTROL_CLIENTS: u64 = 8;

/// How many nanoseconds such a client has for each line, and for taking each answer.
pub const CONTROL_LINE_NS: u64 = 10_000_000_000;

/// Behind how many milliseconds in which no byte comes or goes its thread looks whether the server is at its end.
pub const CONTROL_LOOK_MS: u64 = 100;

// ---- Retunes

/// For how many nanoseconds a retune is tried, while requests of its export wait or all passes are out.
pub const RETUNE_NS: u64 = 5_000_000_000;

/// Behind how many milliseconds it is tried again.
pub const RETUNE_LOOK_MS: u64 = 1;

/// How often it is tried at most, whatever the clock tells.
pub const RETUNE_LOOKS: usize = 5_000;

/// Behind how many milliseconds a reader that waits for a retune looks whether its session is over.
pub const GATE_LOOK_MS: u64 = 100;

// ---- Requests

/// The longest data, in bytes, of a READ that a reader performs itself.
pub const SHORT_READ_BYTES: u32 = 16_384;

/// The longest data, in bytes, of a WRITE that isn't long.
pub const SHORT_WRITE_BYTES: u32 = 65_535;

/// The longest range, in bytes, of a TRIM or WRITE_ZEROES that isn't long. A TRIM with 256 MiB of pages in its range took
/// a millisecond in all (docs/PERFORMANCE.md), and 1 MiB is 1/256 of that.
pub const SHORT_ZERO_BYTES: u32 = 1_048_576;

/// From how many bytes of data on a READ or WRITE is much by itself, also where its session has one request at a time.
pub const BULK_BYTES: u32 = 262_144;

/// How many requests a reader mostly hands in under one hold: they share what a hold costs, and whoever waits for the lock
/// waits for no more than these.
pub const BATCH: usize = 8;

/// How many it hands in where it waited long for the lock, since then each hold is dear, and where nobody is known to ask for little
/// or few, who would wait for the lock as long again.
pub const LONG_BATCH: usize = 16;

/// How many nanoseconds are a long wait for the lock.
pub const LONG_WAIT_NS: u128 = 1_000_000;

/// How many requests a reader performs at most behind one that it handed in, under the same hold, for that one to be served.
pub const PERFORMED_FOR_ONE: usize = 2;

/// How many spare pages a session has places for: for those that it is to have at most, and what one hold takes out.
pub const SPARES_OF_A_SESSION: usize = 1_024;

/// How many spare pages there are at most that belong to no session: 64 MiB.
pub const MOST_SPARES: usize = 16_384;

/// How many pages that writes replaced a reader lets go behind a hold at first, of the export and of its base. Where there are more, the
/// next hold has room for twice as many (`Swept::recycle`).
pub const OUTDATED_PAGES: usize = 256;

/// How much work is done at a hold's end on the base of its export, where steps are queued for that: in pages that are written,
/// and one for each step (`export_cell::work_of`).
pub const QUEUED_WORK: usize = 256;

/// How many bytes the READs and WRITEs of a session may come to that are under way, before its reader hands in no more.
pub const SESSION_BYTES: u64 = 67_108_864;

/// How many bytes the WRITEs of an export may come to that wait.
pub const WAITING_WRITE_BYTES: u64 = 268_435_456;

// ---- Who goes first

/// For how many nanoseconds an interactive session is expected to ask again.
pub const EXPECTED_NS: u64 = 1_000_000_000;

/// So many bytes of one read of a socket are many: behind it the thread lets others run.
pub const MUCH_READ_BYTES: usize = 65_536;

/// So many bytes of one write to a socket are many: behind it the thread lets others run.
pub const MUCH_WRITTEN_BYTES: usize = 131_072;

/// So many bytes go out by several writes beside interactive sessions, of `MUCH_WRITTEN_BYTES` but for the last.
pub const DIVIDED_BYTES: usize = 196_608;

/// How often a session's thread looks for the lock before it waits in `Shared::hold`, which tries the lock itself at each look; and
/// how often in a row before other threads run.
pub const LOCK_LOOKS: usize = 16_384;

pub const LOCK_LOOKS_IN_A_ROW: usize = 32;

/// How often a socket is looked at before its reader sleeps: that took some 20 microseconds, and a short request with its reply 17 to
/// 19. With other threads in between a paced client waited 1.4 to 1.7 times as long beside long requests (docs/notes/tries.md).
pub const SOCKET_LOOKS: usize = 50;

/// Behind how many looks in a row at a socket other threads run, where several threads look at theirs: 4 KiB requests one at a time from four
/// connections then came to more, since their clients want the processors, and to more behind each look than behind each fourth
/// (docs/notes/tries.md).
pub const SOCKET_LOOKS_IN_A_ROW: usize = 1;

/// In how many reads a socket isn't looked at, at least, once nothing came at a look.
pub const LEAST_SKIPPED_READS: u32 = 8;

/// In how many reads in a row it isn't, at most.
pub const MOST_SKIPPED_READS: u32 = 64;

// ---- Turns

/// How many exports there are at most.
pub const MOST_EXPORTS: usize = 64;

/// For how many nanoseconds an export counts as busy that asked for a turn.
pub const BUSY_NS: u64 = 5_000_000;

/// For how many nanoseconds an export still counts whose client sends long WRITEs one behind another.
pub const LINGER_NS: u64 = 250_000;

/// How many units of a session's requests may go on before it asks for a turn again, which is charged with them, and for how many
/// nanoseconds they may. Each asking takes the lock of turns; 64 units are a hundredth of how far an export may be ahead.
pub const UNITS_A_TURN: u32 = 64;

pub const TURN_NS: u64 = 1_000_000;

/// For how many nanoseconds a bulk session lets interactive ones go first to the lock. Without end, eight clients that send one
/// request at a time came to 60,000 a second, and eight that flood another export to 3,700 (docs/notes/tries.md).
pub const DEFERENCE_NS: u64 = 200_000;

/// Of how many bytes of replies a client's pace is found, which then count half.
pub const PACE_BYTES: u64 = 8_388_608;

/// For how many holds with one request a session counts as one that mostly has several.
pub const BACKLOG_HOLDS: u32 = 16;

// ---- Replies

/// How many bytes of replies are kept before they are sent. A reply's data come to it page by page, so that it is to hold a long one.
pub const OUTLET_BYTES: usize = 262_144;

/// The same while a reader answers READs of long data, where the client doesn't read what is sent of them.
pub const WIDE_OUTLET_BYTES: usize = 1_572_864;

/// So many bytes of replies in a buffer go out before more are written: they are still in the processor's cache then.
pub const EARLY_BYTES: usize = 262_144;

/// How many replies are taken in a row: twice as many as a reader hands in requests at most, so that it mostly takes all.
pub const TAKEN_REPLIES: usize = 32;

/// Where so many replies aren't sent, a reader keeps no more of them before it sends these, also where it won't sleep before the
/// next.
pub const KEPT_REPLIES: usize = 4;

/// How many bytes a READ asks for at most that a reader answers itself where several sessions read long data.
pub const ANSWERED_BYTES: u32 = 1_048_576;

/// How many times a reader that answers a READ itself waits for its writer, and for how many milliseconds at most each time. Each
/// reply rings its bell when it is taken and when it is written.
pub const WRITER_WAITS: u32 = 64;

pub const WRITER_WAIT_MS: u64 = 1;

/// How many milliseconds a reader waits for a client that doesn't read its replies, before it leaves them to the writer.
pub const FLUSH_WAIT_MS: u64 = 100;

/// How many seconds a writer sleeps whose session has requests under way, and a reader whose request is held. Each reply rings their
/// bells: this is in case that one is missed.
pub const PATIENCE_S: u64 = 1;

/// Behind how many milliseconds a reader looks again that only WRITEs of other sessions hold back: these ring none of its bells.
pub const OTHERS_WRITES_MS: u64 = 20;

// ---- Reading ahead

/// How many processors there are at least where a client's bytes are read ahead: it keeps two threads busy here, and its own.
pub const WIDE_PROCESSORS: usize = 4;

/// How many nanoseconds after another session's long WRITE a session doesn't count as alone with its own.
pub const LATELY_NS: u64 = 20_000_000;

/// How many nanoseconds a span has in which sessions that read long data are counted.
pub const SPAN_NS: u64 = 20_000_000;

/// How many pieces are read ahead at most.
pub const PIECES: usize = 8;

/// The thread that reads ahead goes on once so many pieces are blank.
pub const ENOUGH_BLANK_PIECES: usize = 4;

/// The most bytes of a piece.
pub const PIECE_BYTES: usize = 131_072;

/// A piece of fewer bytes is short, and so many of them in a row end the reading ahead: then one thread is enough.
pub const SHORT_PIECE_BYTES: usize = 16_384;

pub const FEW_SHORT_PIECES: usize = 2;

// ---- The rules

/// How much data a request has, by its head.
pub fn size_of(head: RequestHead) -> RequestSize
    ensures { result ≡ size_by head.kind head.length }
{
    if head.kind == READ && head.length > SHORT_READ_BYTES {
        RequestSize::LongRead
    } else if head.kind == WRITE && head.length > SHORT_WRITE_BYTES {
        RequestSize::LongWrite
    } else if is_zero(head.kind) && head.length > SHORT_ZERO_BYTES {
        RequestSize::LongZero
    } else {
        RequestSize::Short
    }
}

/// Whether a request of this kind makes a range read as zeros.
fn is_zero(kind: u16) -> bool
    ensures { result ≡ is_zero_by kind }
{
    kind == TRIM || kind == WRITE_ZEROES
}

/// Whether a hold hands in no more behind requests that all have this size: behind others of another size, and behind a long zero.
pub fn ends_hold(size: RequestSize) -> bool
    ensures { result ≡ ends_hold_by size }
{
    match size {
        RequestSize::Nothing | RequestSize::LongZero => true,
        RequestSize::Short | RequestSize::LongRead | RequestSize::LongWrite => false,
    }
}

/// What a request counts in the order of turns: one for each 16 KiB of data begun, and one at least.
pub fn cost_of(head: RequestHead) -> u32
    ensures { result ≡ cost_by head.kind head.length }
{
    if head.kind == READ || head.kind == WRITE {
        turn_order::cost_of(head.length)
    } else {
        1
    }
}

/// Until when a request waits for its export's limit, by its limit tag. None where the limit allows it now.
pub fn limited_until(limit_tag: i128, now: Moment) -> Option<Moment>
    ensures { result ≡ limited_by limit_tag now }
{
    let now = now.tag();
    if limit_tag <= now {
        None
    } else if limit_tag < 1 << 62 {
        Moment::new(limit_tag as u64)
    } else {
        None
    }
}

/// For how many more holds a session counts as one that mostly has several requests, which has more at hand at this one or not.
pub fn backlog_after(before: u32, has_more: bool) -> u32
    ensures { result ≡ backlog_by before has_more }
{
    if has_more {
        BACKLOG_HOLDS
    } else {
        before.saturating_sub(1)
    }
}

/// Whether a session asks for a turn before requests go on that come to so many units with those since it asked last, so many
/// nanoseconds ago.
pub fn asks_for_turn(units: u32, passed: u64) -> bool
    ensures { result ≡ asks_for_turn_by units passed }
{
    units >= UNITS_A_TURN || passed >= TURN_NS
}

/// Whether a session has more at hand than its next request: more has come behind it, or so many are under way, and its client keeps
/// up. Where it doesn't, these wait for the client and not for the server.
pub fn has_more(behind: bool, under_way: u64, keeps_up: bool) -> bool
    ensures { result ≡ has_more_by behind under_way keeps_up }
{
    behind || (under_way > 0 && keeps_up)
}

/// Whether it is looked if more has come behind a request, in a session that counts for so many more holds as one that mostly has
/// several: behind a long WRITE, whose bytes are read apart from what follows them, and not at each hold.
pub fn looks_behind(size: RequestSize, backlog: u32) -> bool
    ensures { result ≡ looks_behind_by size backlog }
{
    match size {
        RequestSize::LongWrite => backlog <= BACKLOG_HOLDS / 2,
        RequestSize::Nothing | RequestSize::Short | RequestSize::LongRead | RequestSize::LongZero =>
            false,
    }
}

/// Whether a client keeps up with its replies, to which so many bytes were written in so many nanoseconds, with so many in between
/// while requests were under way: what the writes took beyond a nanosecond a byte isn't more than what was spent in between.
pub fn keeps_up(bytes: u64, writing: u64, between: u64) -> bool
    ensures { result ≡ keeps_up_by bytes writing between }
{
    writing.saturating_sub(bytes) <= between
}

/// What waits, of which the first is due at a moment, or has none.
pub fn waiting_until(due: &Option<Moment>) -> Waiting
    ensures { result ≡ waiting_by due.now }
{
    match due {
        Some(due) => Waiting::Until {
            nanoseconds: due.nanoseconds(),
        },
        None => Waiting::ForOthers,
    }
}

/// Whether a worker is woken for what waits, where another looks by itself at `looks_at`, in nanoseconds, and the writer of who asks
/// chooses it or not.
pub fn wakes_worker(waiting: Waiting, writer_chooses: bool, looks_at: u64) -> bool
    ensures { result ≡ wakes_worker_by waiting writer_chooses looks_at }
{
    match waiting {
        Waiting::Nothing => false,
        Waiting::Until { nanoseconds } => !writer_chooses && nanoseconds < looks_at,
        Waiting::ForOthers => !writer_chooses,
    }
}

/// How a worker rests that found something due at one moment, where others sleep until another, and what was told since it began to look
/// is due at a third. All are in nanoseconds, and the last moment that there is where there is none.
pub fn rest_of(until: u64, kept: u64, told: u64) -> Rest
    ensures { result ≡ rest_by until kept told }
{
    if told < until && told < kept {
        Rest::No
    } else if until < kept {
        Rest::UntilDue
    } else {
        Rest::UntilWoken
    }
}

/// Whether what waits is due by now.
pub fn is_due(waiting: Waiting, now: Moment) -> bool
    ensures { result ≡ is_due_by waiting now }
{
    match waiting {
        Waiting::Until { nanoseconds } => nanoseconds <= now.nanoseconds(),
        Waiting::Nothing | Waiting::ForOthers => false,
    }
}

/// Whether a bulk session that found an interactive one asking so many nanoseconds ago still lets such go first.
pub fn still_defers(passed: u64) -> bool
    ensures { result ≡ still_defers_by passed }
{
    passed < DEFERENCE_NS
}

/// Whether a retune that couldn't be made for so many nanoseconds is tried once more.
pub fn still_retunes(passed: u64) -> bool
    ensures { result ≡ still_retunes_by passed }
{
    passed < RETUNE_NS
}

/// Whether a client of the control socket is still waited for that has had so many nanoseconds for its line, or for its answer.
pub fn still_waits_for_line(passed: u64) -> bool
    ensures { result ≡ still_waits_for_line_by passed }
{
    passed <= CONTROL_LINE_NS
}

/// How many milliseconds a client has for its next bytes, so many after its handshake and after its option began. 0: none.
pub fn handshake_wait_ms(passed: u64, option_passed: u64) -> u64
    ensures { result ≡ handshake_wait_by passed option_passed }
{
    let whole = HANDSHAKE_MS.saturating_sub(passed);
    let option = OPTION_MS.saturating_sub(option_passed);
    whole.min(option)
}

/// Whether a write ends its session that so often waited in vain for its client.
pub fn is_stalled(waits: u64) -> bool
    ensures { result ≡ is_stalled_by waits }
{
    waits >= STALLED_WRITE_MS / FLUSH_WAIT_MS
}

/// Whether a reader hands in no more for now: so many bytes of its session's requests are under way, and so many of WRITEs that wait
/// at its export. Where nothing of its session is under way it goes on.
pub fn holds_back(under_way: u64, session_bytes: u64, waiting_bytes: u64) -> bool
    ensures { result ≡ holds_back_by under_way session_bytes waiting_bytes }
{
    under_way > 0 && (session_bytes > SESSION_BYTES || waiting_bytes > WAITING_WRITE_BYTES)
}

/// How many spare pages a session is to have whose WRITEs just brought so many bytes: enough for as many again.
pub fn spares_wanted(brought: u64) -> usize
    ensures { result ≡ spares_by brought }
{
    if brought == 0 {
        return 0;
    }
    let pages = (brought / 4096).min(240) as usize;
    32 + 2 * pages
}

/// Whether a session passes on spare pages, or takes some: it has many more than are wanted, or fewer than half of them.
pub fn is_uneven(have: usize, wanted: usize) -> bool
    ensures { result ≡ is_uneven_by have wanted }
{
    wanted < have.saturating_sub(64) || have < wanted / 2
}

/// How many bytes of data a request brings.
pub fn brought_by(head: RequestHead) -> u64
    ensures { result ≡ carried_by head.kind head.length }
{
    if head.kind == WRITE { data_of(head) } else { 0 }
}

/// Whether room is made for what a session's WRITEs bring next, which brought so many bytes since it was made.
pub fn makes_room(taken: u64) -> bool
    ensures { result ≡ makes_room_by taken }
{
    taken >= ROOM_BYTES as u64
}

/// How many bytes of data go with a request, in either direction.
pub fn data_of(head: RequestHead) -> u64
    ensures { result ≡ data_by head.kind head.length }
{
    if head.kind == READ || head.kind == WRITE {
        u64::from(head.length)
    } else {
        0
    }
}

/// Whether an `accept` that failed with this number of the system (errno(3)) may succeed a little later: no descriptor, buffer
/// or memory is left, or the network had a fault that accept(2) says to pass over.
pub fn accept_may_pass(number: u32) -> bool
    ensures { result ≡ accept_may_pass_by number }
{
    is_shortage(number) || is_network_fault(number)
}

/// ENOMEM, ENFILE, EMFILE, ENOBUFS.
fn is_shortage(number: u32) -> bool
    ensures { result ≡ is_shortage_by number }
{
    number == 12 || number == 23 || number == 24 || number == 105
}

/// EPERM, ENONET, EPROTO, ENOPROTOOPT, EOPNOTSUPP, ENETDOWN, ENETUNREACH, EHOSTDOWN, EHOSTUNREACH.
fn is_network_fault(number: u32) -> bool
    ensures { result ≡ is_network_fault_by number }
{
    let is_protocol = number == 1 || number == 71 || number == 92 || number == 95;
    let is_net = number == 64 || number == 100 || number == 101;
    is_protocol || is_net || number == 112 || number == 113
}

/// How many connections a process has room for that may have so many descriptors: some are its own.
pub fn connections_for(descriptors: u64) -> u64
    ensures { result ≡ descriptors - 20 }
{
    descriptors.saturating_sub(OWN_DESCRIPTORS)
}

/// How much a session asks for with its next request, behind which `more` are ready, where it mostly has `several` at a time, and its
/// latest ones wait for their limit (`limited`): where several do, it gains nothing by the lock.
pub fn load_of(next: RequestHead, more: bool, several: bool, limited: bool) -> Load
    ensures { result ≡ load_by next.kind next.length more several limited }
{
    if more || (several && limited) {
        return Load::Bulk;
    }
    match size_of(next) {
        RequestSize::Nothing | RequestSize::Short => Load::Interactive,
        RequestSize::LongRead | RequestSize::LongWrite => load_of_data(next.length, several),
        RequestSize::LongZero => Load::Bulk,
    }
}

/// The same of a READ or WRITE of so many bytes of data, which are long.
fn load_of_data(length: u32, several: bool) -> Load
    ensures { result ≡ load_of_data_by length several }
{
    if several || length >= BULK_BYTES {
        Load::Bulk
    } else {
        Load::Interactive
    }
}

/// Whether a reader performs a request itself that it has handed in: its writer does so with READs of long data.
pub fn performs_itself(size: RequestSize) -> bool
    ensures { result ≡ performs_by size }
{
    match size {
        RequestSize::Short | RequestSize::LongWrite | RequestSize::LongZero => true,
        RequestSize::LongRead | RequestSize::Nothing => false,
    }
}

/// Whether a request is a READ of long data that a reader answers itself, where so many sessions read such, with so many processors:
/// more than half as many, so that none is left for their writers. The reply is short enough to be written briefly.
pub fn answers_read(head: RequestHead, readers: u64, processors: usize) -> bool
    ensures { result ≡ answers_read_by head.kind head.length readers processors }
{
    let is_long = head.length > SHORT_READ_BYTES && head.length <= ANSWERED_BYTES;
    head.kind == READ && is_long && readers > processors as u64 / 2
}

/// The number of the span in which sessions that read long data are counted.
pub fn span_of(now: Moment) -> u64
    ensures { result ≡ span_by now }
{
    now.nanoseconds() / SPAN_NS
}

/// How many requests a hold hands in at most, which are so many but where the reader answers a READ of long data itself.
pub fn handed_in(answers: bool, most: usize) -> usize
    ensures { result ≡ handed_in_by answers most }
{
    if answers { 1 } else { most }
}

/// How many requests a reader hands in under a hold, where it waited so long for the lock, beside sessions that ask for little or have
/// few at hand, or beside none.
pub fn batch_after(wait: Duration, beside: bool) -> usize
    ensures { result ≡ batch_by (as_nanos wait) beside }
{
    if wait.as_nanos() > LONG_WAIT_NS || !beside {
        LONG_BATCH
    } else {
        BATCH
    }
}

/// In how many reads a socket isn't looked at, once nothing came at a look: twice as many as before it, within bounds.
pub fn next_skip(skipped: u32) -> u32
    ensures { result ≡ next_skip_by skipped }
{
    if skipped < LEAST_SKIPPED_READS / 2 {
        LEAST_SKIPPED_READS
    } else if skipped > MOST_SKIPPED_READS / 2 {
        MOST_SKIPPED_READS
    } else {
        skipped * 2
    }
}

/// Whether other threads run behind the look of this number, where they do so behind so many in a row. With 0 they never do.
pub fn yields_behind_look(look: usize, in_a_row: usize) -> bool
    ensures { result ≡ yields_behind_look_by look in_a_row }
{
    in_a_row > 0 && look % in_a_row == in_a_row - 1
}

/// Behind how many looks in a row at its socket a thread lets others run, where so many threads look at theirs, itself among them.
/// Alone it never does.
pub fn looks_in_a_row(looking: usize) -> usize
    ensures { result ≡ looks_in_a_row_by looking }
{
    if looking > 1 {
        SOCKET_LOOKS_IN_A_ROW
    } else {
        0
    }
}

/// Whether a read or a write of so many bytes is long enough to let others run behind it, where so many are many.
pub fn yields_behind(bytes: usize, many: usize) -> bool
    ensures { result ≡ yields_by bytes many }
{
    bytes >= many
}

/// Whether an interactive session that asked last at that moment, in nanoseconds, isn't expected any more.
pub fn is_forgotten(latest: u64, now: Moment) -> bool
    ensures { result ≡ is_forgotten_by latest now }
{
    now.nanoseconds().saturating_sub(latest) > EXPECTED_NS
}

/// Whether a client's bytes may be read ahead, with so many processors.
pub fn may_read_ahead(processors: usize) -> bool
    ensures { result ≡ reads_ahead_by processors }
{
    processors >= WIDE_PROCESSORS
}

/// Whether a session that sends a long WRITE now is alone with it, where another sent its latest then.
pub fn is_alone(other: &Option<Moment>, now: Moment) -> bool
    ensures { result ≡ is_alone_by other.now now }
{
    match other {
        Some(at) => now.nanoseconds().saturating_sub(at.nanoseconds()) > LATELY_NS,
        None => true,
    }
}

/// How many short pieces were read ahead in a row, behind one of so many bytes. One without any is the last.
pub fn short_pieces(before: usize, bytes: usize) -> usize
    ensures { result ≡ short_pieces_by before bytes }
{
    if bytes == 0 {
        FEW_SHORT_PIECES
    } else if bytes < SHORT_PIECE_BYTES {
        before.saturating_add(1)
    } else {
        0
    }
}

/// Whether a reader that won't sleep may keep replies, of which so many aren't sent.
pub fn may_keep(unsent: usize) -> bool
    ensures { result ≡ keeps_by unsent }
{
    unsent < KEPT_REPLIES
}

/// Whether so many bytes in a buffer go out before more are written, where the client read what was sent before in time or didn't.
pub fn sends_early(buffered: usize, stuck: bool) -> bool
    ensures { result ≡ sends_early_by buffered stuck }
{
    buffered >= EARLY_BYTES && !stuck
}

/// Whether a text of so many bytes goes straight out and isn't copied to the buffer, where a write waits for the client or doesn't.
pub fn goes_straight(bytes: usize, patient: bool) -> bool
    ensures { result ≡ goes_straight_by bytes patient }
{
    patient && bytes > SHORT_READ_BYTES as usize
}

/// How many of so many bytes are written to a socket at once, where an interactive session is expected or not. What is left isn't little.
pub fn sent_at_once(bytes: usize, interactive: bool) -> usize
    ensures count { result ≡ sent_by bytes interactive }
    ensures within { result ≤ bytes }
{
    if interactive && bytes >= DIVIDED_BYTES {
        MUCH_WRITTEN_BYTES
    } else {
        bytes
    }
}

/// Whether a reader may write replies of so many bytes itself, heads included: they take three quarters of its room at most, and fit in
/// beside those that weren't sent, so that nothing is sent before. For a client that doesn't read it waits `FLUSH_WAIT_MS`.
pub fn suits_reader(bytes: usize, unsent_bytes: usize, room: usize) -> bool
    ensures { result ≡ suits_reader_by bytes unsent_bytes room }
{
    bytes <= room - room / 4 && unsent_bytes < room - bytes
}

/// How long a writer sleeps without a ring, where so many requests are under way: without end where there is none.
pub fn patience(under_way: u64) -> Option<Duration>
    ensures { option_map as_nanos result ≡ patience_by under_way }
{
    if under_way == 0 {
        None
    } else {
        Some(Duration::from_secs(PATIENCE_S))
    }
}

/// How long a reader that is held back sleeps without a ring, where so many requests of its session are under way. Where none is, it is
/// the WRITEs of other sessions that wait, whose replies don't ring for it.
pub fn held_back_patience(under_way: u64) -> Duration
    ensures { as_nanos result ≡ held_back_patience_by under_way }
{
    if under_way == 0 {
        Duration::from_millis(OTHERS_WRITES_MS)
    } else {
        Duration::from_secs(PATIENCE_S)
    }
}

/// The bell of a session, by its number. Two sessions that share one wake each other for nothing.
pub fn bell_of(session: u64) -> usize
    ensures { result ≡ bell_by session }
{
    (session % SESSION_BELLS) as usize
}

/// How many passes a server has where its listeners accept so many connections in all: one for each worker, two for each
/// connection that may be there, and one more.
pub fn passes_for(connections: u64, workers: u64) -> u64
    ensures number { workers < 2 ^ 32 → result ≡ min connections 8_192 * 2 + workers + 1 }
    ensures some { 1 ≤ result }
{
    connections
        .min(CONNECTIONS)
        .saturating_mul(2)
        .saturating_add(workers)
        .saturating_add(1)
}

/// The moment that lies so far behind the first. It stays at the last one.
pub fn moment_after(passed: Duration) -> Moment
    ensures { result ≡ min (as_nanos passed) 4_611_686_018_427_387_903 }
{
    let nanoseconds = passed.as_nanos().min(u128::from(LAST_MOMENT_NS)) as u64;
    Moment::new(nanoseconds).unwrap_or(Moment::zero())
}
