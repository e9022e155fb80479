// Listing: the answer and the pairs with a list of 8,192; then the answer with a list that is one number too short for the
// last pair. `changed` where a number past the pairs written is not what stood there.
ghost use Rattle.std.specs.Prelude.{◌≡◌, ◌≤◌, length};

use lister_contract::Answer;
use std::io;

// What stands in the list before.
const MARK: u32 = 2779096485;

// The pairs that the list has room for, and their numbers.
const PAIRS: usize = 8192;

const LIST_ROOM: usize = 16384;

// Writes the answer in one line, and a refusal in a line before it.
fn write_answer(rt: &impl Print, a: Answer) -> io::Result<()> {
    if a.number != 0 {
        println!(rt; "refused {} at {}", a.number, a.place)?;
    }
    println!(rt; "records {} pairs {}", a.records, a.pairs)
}

// Writes the first pairs of a list, each in one line.
fn write_pairs(rt: &impl Print, list: &[u32], count: usize) -> io::Result<()> {
    for pair in list.chunks_exact(2).take(count) {
        println!(rt; "{} {}", pair[0], pair[1])?;
    }
    Ok(())
}

// The numbers that so many pairs take, as far as the list has room.
fn twice(count: usize) -> usize
    ensures { result ≤ 16384 }
{
    2 * count.min(PAIRS)
}

// Writes the pairs of an accepted list, and whether the numbers after them are no longer marks.
fn write_list(rt: &impl Print, list: &[u32], a: Answer) -> io::Result<()> {
    let count = if a.number == 0 { a.pairs } else { 0 };
    write_pairs(rt, list, count)?;
    if cases::changed(list, twice(count), MARK) {
        rt.write_all(b"changed\n")?;
    }
    Ok(())
}

// Lists into the front of a list: so many numbers of it are lent.
fn list_front(doc: &[u8], list: &mut [u32], room: usize) -> Answer
    requires { room ≤ length list.old }
    ensures { length list.new ≡ length list.old }
{
    let mut names = [0u32; cases::NAMES];
    let mut qnames = [0u32; cases::QNAMES];
    let mut events = [0u32; cases::EVENTS];
    lister::list(doc, &mut names, &mut qnames, &mut events, &mut list[..room])
}

// Lists into marks.
fn list_into(rt: &impl Print, doc: &[u8], room: usize) -> io::Result<Answer>
    requires { room ≤ 16384 }
{
    let mut list = [MARK; LIST_ROOM];
    let a = list_front(doc, &mut list, room);
    write_answer(rt, a)?;
    write_list(rt, &list, a)?;
    Ok(a)
}

// The room that is one number too small.
fn too_small(pairs: usize) -> usize
    ensures { result ≤ 16384 }
{
    twice(pairs).saturating_sub(1)
}

// Lists a document into a list of full size, and where it has pairs, into one that is too small.
pub fn run(rt: &impl Print, doc: &[u8]) -> io::Result<()> {
    let a = list_into(rt, doc, LIST_ROOM)?;
    if a.pairs != 0 {
        list_into(rt, doc, too_small(a.pairs))?;
    }
    Ok(())
}
