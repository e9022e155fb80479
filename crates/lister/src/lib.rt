// Listing: the pairs of records with equal meaning, for any document, tables and list (01, "The four jobs"). The meanings of
// all records are rendered as numbers into one array, with their hashes; equal parts of it are linked, counted, and written as
// pairs.
#![tactic(auto)]

ghost use Rattle.std.specs.Prelude.{◌≡◌, length, ◌≤◌};
ghost use Rattle.machine.specs.Machine.{reading, room_in};
ghost use Rattle.machine.specs.Tables.{Filled};
ghost use Rattle.render.specs.Render.{room_for};
ghost use Rattle.lister_contract.specs.Contract.{answer, Lists};
ghost use Rattle.lister_contract.specs.Tables.{TablesListed};

use lister_contract::Answer;

// Numbers of the three arrays that a document's meanings are rendered into: the last holds those of every document.
const SMALL: usize = 40960;

const MEDIUM: usize = 65536;

const LARGE: usize = 335872;

fn refused(number: u32, place: usize) -> Answer
    ensures { result ≡ answer number place 0 0 }
{
    Answer {
        number,
        place,
        records: 0,
        pairs: 0,
    }
}

// Lists the records of tables that an accepted reading has filled. `syms` has room for the numbers of every document of this
// size.
fn list_tables(
    doc: &[u8],
    names: &[u32],
    qnames: &[u32],
    events: &[u32],
    read: machine::Answer,
    syms: &mut [u32],
    pairs: &mut [u32],
) -> Answer
    requires { Filled doc.now names.now qnames.now events.now read.names read.qnames read.events
        × (room_for (length doc.now) read.events ≤ length syms.old) }
    ensures { TablesListed doc.now names.now qnames.now events.now read pairs.old pairs.new result }
{
    // a first value whose bytes differ is stored by vector instructions, not by memset
    let mut classes = [1u32; token::NAME_ROWS];
    let mut starts = [1usize; twins::BOUNDS];
    let mut hashes = [1u64; twins::BOUNDS];
    let mut next = [1usize; twins::PARTS];
    name_classes::name_classes(doc, names, read.names, &mut classes);
    let records = render::render(
        doc,
        names,
        qnames,
        events,
        &classes,
        read.names,
        read.qnames,
        read.events,
        syms,
        &mut starts,
        &mut hashes,
    );
    let count = twins::link(syms, &starts, &hashes, records, &mut next);
    if pairs.len() / 2 < count {
        return Answer {
            number: token::NO_PAIRS,
            place: count,
            records,
            pairs: count,
        };
    }
    twins::write_pairs(syms, &starts, records, &next, pairs);
    Answer {
        number: token::ACCEPTED,
        place: read.place,
        records,
        pairs: count,
    }
}

// Fills the three tables as reading does, and then the list. The meanings are rendered into the smallest of three arrays that
// has room for every document of this size, so that a small document does not pay for clearing the largest. The local arrays
// stand in one frame: they take 1.4 MB of the stack for every document (README.md, "Stack").
// Three calls written out: with a generic function between, for one array's length each, a listing is slower (docs/PERFORMANCE.md, "Listing").
pub fn list(
    doc: &[u8],
    names: &mut [u32],
    qnames: &mut [u32],
    events: &mut [u32],
    pairs: &mut [u32],
) -> Answer
    ensures { Lists doc.now (reading doc.now (room_in (length names.old) (length qnames.old) (length events.old)))
        names.old qnames.old events.old pairs.old
        names.new qnames.new events.new pairs.new result }
{
    let read = reader::read(doc, names, qnames, events);
    if read.number != 0 {
        return refused(read.number, read.place);
    }
    let need = 5 * doc.len() + 2 * read.events;
    if need <= SMALL {
        let mut small = [1u32; SMALL];
        return list_tables(doc, names, qnames, events, read, &mut small, pairs);
    }
    if need <= MEDIUM {
        let mut medium = [1u32; MEDIUM];
        return list_tables(doc, names, qnames, events, read, &mut medium, pairs);
    }
    let mut large = [1u32; LARGE];
    list_tables(doc, names, qnames, events, read, &mut large, pairs)
}
