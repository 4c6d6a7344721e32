// A text that is gathered line by line, and put in pieces.
ghost use Rattle.std.specs.Prelude.{◌≡◌, ◌≤◌, ◌+◌, List, ℕ, [], ◌++◌, length, OnOk, IfErr};
ghost use Rattle.f2_dump.specs.Dump.{Dumps, Gathers, Ends, Sinks, OnlySink};

use crate::DumpRefusal;
use f2_disk::Sink;
use std::alloc::AllocError;

// The most bytes that a piece has.
pub(crate) const PIECE: usize = 65536;

// The bytes that leave room for one line more.
pub(crate) const FULL: usize = PIECE - 256;

// Puts a text.
pub(crate) fn put_text<O: Sink>(o: &mut O, text: &[u8]) -> Result<(), DumpRefusal>
    requires { length text.now ≤ PIECE }
    ensures text { Dumps text.now (O.told o.old) (O.told o.new) result }
    ensures sink { Sinks (O.faults o.old) (O.faults o.new) result }
    ensures only { OnlySink result }
    ensures failed { IfErr result (λ e. e ≡ DumpRefusal.SinkFault) }
{
    match o.put(text) {
        Ok(()) => Ok(()),
        Err(_) => Err(DumpRefusal::SinkFault),
    }
}

// Puts the text that is gathered, and begins anew: also where the put failed, since the rest may not follow then.
fn flush<O: Sink>(text: &mut Vec<u8>, o: &mut O) -> Result<(), DumpRefusal>
    requires { length text.old.items ≤ PIECE }
    ensures text { Gathers [] text.old.items text.new.items (O.told o.old) (O.told o.new) result }
    ensures empty { text.new.items ≡ [] }
    ensures sink { Sinks (O.faults o.old) (O.faults o.new) result }
    ensures only { OnlySink result }
{
    let put = put_text(o, text);
    text.clear();
    put
}

// Goes on after bytes were appended to the text, or were not for want of memory: then the whole text is dropped. Leaves
// room for so many more.
pub(crate) fn keep_room<O: Sink>(
    text: &mut Vec<u8>,
    o: &mut O,
    pushed: Result<(), AllocError>,
    room: usize,
) -> Result<(), DumpRefusal>
    requires text { length text.old.items ≤ PIECE }
    requires room { room ≤ PIECE }
    ensures text { (before line : List ℕ) → OnOk pushed (text.old.items ≡ before ++ line)
        → Gathers line before text.new.items (O.told o.old) (O.told o.new) result }
    ensures room { length text.new.items + room ≤ PIECE }
    ensures sink { Sinks (O.faults o.old) (O.faults o.new) result }
    ensures only { OnlySink result }
{
    if pushed.is_err() {
        text.clear();
        return Err(DumpRefusal::NoMemory);
    }
    if text.len() > PIECE - room {
        flush(text, o)
    } else {
        Ok(())
    }
}

// Goes on likewise after a line, and leaves room for one more.
pub(crate) fn keep<O: Sink>(
    text: &mut Vec<u8>,
    o: &mut O,
    pushed: Result<(), AllocError>,
) -> Result<(), DumpRefusal>
    requires { length text.old.items ≤ PIECE }
    ensures text { (before line : List ℕ) → OnOk pushed (text.old.items ≡ before ++ line)
        → Gathers line before text.new.items (O.told o.old) (O.told o.new) result }
    ensures room { length text.new.items ≤ FULL }
    ensures sink { Sinks (O.faults o.old) (O.faults o.new) result }
    ensures only { OnlySink result }
{
    keep_room(text, o, pushed, PIECE - FULL)
}

// Puts what is left of a text, also after a refusal, and ends with this answer.
pub(crate) fn finish<O: Sink>(
    text: &[u8],
    o: &mut O,
    answer: Result<(), DumpRefusal>,
) -> Result<(), DumpRefusal>
    requires { length text.now ≤ PIECE }
    ensures text { Dumps text.now (O.told o.old) (O.told o.new) result }
    ensures ends { Ends answer (O.faults o.old) (O.faults o.new) result }
{
    if text.is_empty() {
        return answer;
    }
    put_text(o, text)?;
    answer
}
