// How many words a Format of a script is lent, out of those that there are. Rests on the crates `types`, `meaning` and
// `tables`.
#![tactic(auto)]

ghost use Rattle.std.specs.Prelude.{◌≡◌};
ghost use Rattle.format_room.specs.Room.{words_for};

use types::Counts;

// How many words Format is lent: as many as the counts ask for, or none where they are out of range or ask for more
// than there is room. Lent none, Format refuses with 16.
// Kept: usize since c74ac5d; a Result would ask callers to take it apart. Format refuses with 16 on no words.
pub fn words_for(c: Counts, room: usize) -> usize
    ensures { result ≡ words_for room c }
{
    if !tables::good_counts(c) {
        return 0;
    }
    let n = tables::size_of(c);
    if n <= room { n } else { 0 }
}
