ghost use Rattle.std.specs.Prelude.{List, ℕ};
ghost use Rattle.nbd_options.specs.declared.attach.Attached.{Attached};
ghost use Rattle.nbd_options.specs.Exports.{ExportFacts};
ghost use Rattle.nbd_session.specs.Askings.{AskedAtTheEnd};
ghost use Rattle.nbd_session.specs.Haggled.{HandshakeIsHaggled};
ghost use Rattle.nbd_commands.specs.Exports.{Export};
ghost use Rattle.nbd_session.specs.declared.outcomes.End.{End};
ghost use Rattle.nbd_session.specs.Conversation.{Talked, OneConversation, SomeConversation, BeginsAlike};
ghost use Rattle.nbd_session.specs.Plainly.{RequestsArePlain, ServiceIsPlain};
ghost use Rattle.nbd_session.specs.Worked.{one_export, written_bytes, written_text, chosen_bytes, chosen_text, zeros_bytes, zeros_text, unknown_flag_bytes, unknown_flag_text, silent_bytes, silent_text, unnamed_bytes, unnamed_text, past_end_bytes, past_end_text, cut_head_bytes, cut_head_text, cut_payload_bytes, cut_payload_text, other_magic_bytes, other_magic_text, too_long_bytes, too_long_text};

use crate::outcomes::End;
use nbd_options::Attach;

/// What is said to a client is a function of its bytes: one text and one end for each input, and some for any. And the
/// text to a beginning of the input is a beginning of the text.
pub fn one_conversation()
    ensures one { (exports : List Export) → OneConversation exports }
    ensures some { (exports : List Export) → SomeConversation exports }
    ensures begins { (exports : List Export) → BeginsAlike exports }
{}

/// What requests are told, which come one after another, follows from the export's bytes alone: zeros, and their own
/// changes. And an export is worn once it has counted 2^56 steps. So texts and ends are told by these alone.
pub fn requests_are_plain()
    ensures requests { RequestsArePlain }
    ensures service { ServiceIsPlain }
{}

/// The text of a handshake is the greeting and what haggling says to the client's flags, to its options with the answers of
/// `attach`, and to the head that follows them, if one is refused; and it ends as haggling does.
pub fn handshake_is_haggled<T: Attach>()
    ensures { (table : List ExportFacts) → HandshakeIsHaggled T.may table }
{}

/// A handshake that ends in an export asked for a session of it last, and that was given; before that, and where it ends otherwise,
/// none is given.
pub fn asked_at_the_end<T: Attach>()
    ensures { (table : List ExportFacts) → AskedAtTheEnd T.may table }
{}

/// Conversations that were worked out by hand are those of the definition. `specs/Worked.antt` has the bytes.
pub fn worked_conversations()
    ensures written { Talked one_export written_bytes written_text End.Disc }
    ensures chosen { Talked one_export chosen_bytes chosen_text End.Over }
    ensures zeros { Talked one_export zeros_bytes zeros_text End.Over }
    ensures unknown_flag { Talked one_export unknown_flag_bytes unknown_flag_text End.BadFlags }
    ensures silent { Talked one_export silent_bytes silent_text End.Over }
    ensures unnamed { Talked one_export unnamed_bytes unnamed_text End.NoExport }
    ensures past_end { Talked one_export past_end_bytes past_end_text End.Over }
    ensures cut_head { Talked one_export cut_head_bytes cut_head_text End.Cut }
    ensures cut_payload { Talked one_export cut_payload_bytes cut_payload_text End.Cut }
    ensures other_magic { Talked one_export other_magic_bytes other_magic_text End.BadMagic }
    ensures too_long { Talked one_export too_long_bytes too_long_text End.TooLong }
{}
