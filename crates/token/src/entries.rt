// The table of tokens: an entry for each byte, with the number of its class and the number of its shape.
ghost use Rattle.token.specs.Entries.{Listed};

// An entry is the class's number times 32, plus the shape's number.
const ENTRIES: [u16; 256] = [
    0, 34, 35, 35, 36, 36, 33, 33, 36, 37, 44, 44, 40, 42, 38, 41, 43, 39, 36, 35, 35, 0, 43, 41,
    39, 0, 0, 40, 0, 0, 0, 0, 0, 0, 0, 0, 0, 0, 0, 0, 0, 0, 0, 0, 0, 0, 0, 0, 0, 0, 0, 0, 0, 0, 0,
    0, 0, 0, 0, 0, 0, 0, 0, 0, 0, 0, 0, 0, 0, 0, 0, 0, 0, 0, 0, 0, 0, 0, 0, 0, 0, 0, 0, 0, 0, 0, 0,
    0, 0, 0, 0, 0, 0, 0, 0, 0, 0, 0, 0, 0, 0, 0, 0, 0, 0, 0, 0, 0, 0, 0, 0, 0, 0, 0, 0, 0, 0, 0, 0,
    0, 0, 0, 85, 84, 84, 82, 83, 81, 0, 46, 48, 47, 40, 40, 33, 44, 33, 34, 35, 36, 45, 0, 0, 0, 0,
    0, 0, 0, 0, 0, 0, 0, 0, 0, 0, 0, 0, 0, 0, 0, 0, 0, 0, 0, 0, 0, 0, 0, 0, 0, 0, 0, 0, 0, 0, 0, 0,
    0, 0, 0, 0, 0, 0, 0, 0, 0, 0, 0, 0, 0, 0, 0, 0, 0, 0, 0, 0, 0, 0, 0, 0, 0, 0, 0, 0, 0, 0, 0, 0,
    0, 0, 0, 0, 0, 0, 0, 0, 0, 0, 0, 0, 0, 0, 0, 0, 0, 0, 0, 0, 0, 0, 0, 0, 704, 680, 640, 608, 0,
    0, 576, 550, 512, 486, 454, 416, 384, 365, 320, 301, 262, 230, 198, 166, 134, 102, 0,
];

// The table, to be made once and lent: an index into a constant copies the whole of it at each use.
pub fn table() -> [u16; 256]
    ensures { Listed result }
{
    ENTRIES
}
