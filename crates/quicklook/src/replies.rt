// A call's reply as the number of the table.
ghost use Rattle.std.specs.Prelude.{◌≡◌};
ghost use Rattle.spec.specs.Answer.{reply_number};

use types::Refusal;

// The number of a reply: 0 is done.
// Kept: a function, since a `From` of a Result for u8 may be written in no crate but the library's.
pub(crate) fn reply_number(reply: Result<(), Refusal>) -> u8
    ensures { result ≡ reply_number reply }
{
    match reply {
        Ok(()) => 0,
        Err(refusal) => u8::from(refusal),
    }
}
