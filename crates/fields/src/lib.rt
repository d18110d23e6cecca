// The fields of a line, read one after another: a number, one letter, a flag, a commit's point. Each read says what
// follows from the field that it found and from the fields after it; where the next field is of another kind, or none
// is left, it gives `None`. Each function is proved against specs/. Rests on the crates `types` and `texts`.
#![tactic(auto)]

ghost use Rattle.std.specs.Prelude.{◌≡◌, ◌<◌, ◌∷◌, [], ℕ, List, length, Some, IfSome, MatchOption};
ghost use Rattle.fields.specs.Fields.{Parsed, fields, number as number·of, letter_or, done as done·of};
ghost use Rattle.fields.specs.Kinds.{ExtentNext, FinishNext, PickNext, extent as extent·of, finish as finish·of};
ghost use Rattle.fields.specs.Kinds.{pick as pick·of};
ghost use Rattle.fields.specs.Reads.{after, after_letter, number_of, letter_of, is_space, fields_of_rest, KeepsUnread};
ghost use Rattle.fields.specs.Reads.{Taken};
ghost use Rattle.std.specs.Fn.{FnReturnsAt};
ghost use Rattle.std.specs.List.{position_from};

use std::marker::Model;
use texts::SPACE;
use types::{Call, Counts, Extent, Finish, Pick, Point};

// What a line asks for. A malformed line asks for nothing: it is no command.
#[derive(Clone, Copy)]
pub enum Command {
    Format(Counts),
    Call(Call),
}

// The fields of a line that are not read yet: those of the bytes after the last space that was passed, or none. A read
// that gives `None` leaves them as they were.
#[derive(Drop)]
pub struct Fields<'a> {
    rest: Option<&'a [u8]>,
}

impl<'a> Model for Fields<'a> {
    ghost use Rattle.std.specs.Prelude.{ℕ, List};
    ghost use Rattle.fields.specs.Reads.{fields_of_rest};

    ghost Value = { List (List ℕ) };

    ghost view = { λ f. fields_of_rest f.rest };
}

// Where the first space lies.
fn first_space(bytes: &[u8]) -> Option<usize>
    ensures value { result ≡ position_from is_space 0 bytes.now }
    ensures inside { IfSome result (λ i. i < length bytes.now) }
{
    bytes.iter().position(|b| *b == SPACE)
}

// The number that a field is.
// Kept: the library's `parse` takes a `+` before the digits, which is no number here.
#[tactic(auto, using(crate::proofs::Digits::number_steps))]
fn number_in(field: &[u8]) -> Option<u64>
    ensures { result ≡ number_of field.now }
{
    if field.is_empty() {
        return None;
    }
    let mut n: u64 = 0;
    for b in field {
        if !b.is_ascii_digit() {
            return None;
        }
        n = n.checked_mul(10)?.checked_add(u64::from(*b - b'0'))?;
    }
    Some(n)
}

// The one byte that a field is.
fn letter_in(field: &[u8]) -> Option<u8>
    ensures { result ≡ letter_of field.now }
{
    match field {
        [b] => Some(*b),
        _ => None,
    }
}

// The flag A or P that a field is.
// Kept: a TryFrom of a letter would stand in `types`, which knows no lines.
#[tactic(auto, unfolding(crate::specs::Kinds::extent, crate::specs::Fields::letter_or))]
fn extent_in(field: &[u8]) -> Option<Extent>
    ensures { (fs : List (List ℕ)) (next : ExtentNext) → extent·of (field.now ∷ fs) next ≡ after result fs next }
{
    match letter_in(field)? {
        b'A' => Some(Extent::All),
        b'P' => Some(Extent::Part),
        _ => None,
    }
}

// The flag S or K that a field is.
// Kept: as `extent_in`; one function for both flags would take as arguments the four words that its `match` says.
#[tactic(auto, unfolding(crate::specs::Kinds::finish, crate::specs::Fields::letter_or))]
fn finish_in(field: &[u8]) -> Option<Finish>
    ensures { (fs : List (List ℕ)) (next : FinishNext) → finish·of (field.now ∷ fs) next ≡ after result fs next }
{
    match letter_in(field)? {
        b'S' => Some(Finish::Settle),
        b'K' => Some(Finish::Keep),
        _ => None,
    }
}

// The pick that a field is: E, L or a named point.
// Kept: as `extent_in`; it takes a letter or a number.
#[tactic(auto, unfolding(crate::specs::Kinds::pick, crate::specs::Fields::letter_or, crate::specs::Fields::number))]
fn pick_in(field: &[u8]) -> Option<Pick>
    ensures { (fs : List (List ℕ)) (next : PickNext) → pick·of (field.now ∷ fs) next ≡ after result fs next }
{
    Some(match letter_in(field) {
        Some(b'E') => Pick::Earliest,
        Some(b'L') => Pick::Latest,
        _ => Pick::Named(Point::from(number_in(field)?)),
    })
}

impl<'a> Fields<'a> {
    // All the fields of a line: an empty line has one, and it is empty.
    pub fn new(line: &'a [u8]) -> Self
        ensures { result ≡ fields line.now }
    {
        Fields { rest: Some(line) }
    }

    // The next field, whatever it is, and the bytes after the space that ends it.
    #[tactic(auto, using(crate::proofs::Cuts::cuts))]
    fn split(&self) -> Option<(&'a [u8], Option<&'a [u8]>)>
        ensures { MatchOption result (self.now ≡ []) (λ s. self.now ≡ s.0.now ∷ fields_of_rest s.1) }
    {
        let rest = self.rest?;
        match first_space(rest) {
            Some(i) => Some((&rest[..i], Some(&rest[i + 1..]))),
            None => Some((rest, None)),
        }
    }

    // What is read in the next field, if anything is.
    fn take<T, F: Fn(&[u8]) -> Option<T>>(&mut self, read: F) -> Option<T>
        requires { F.IsAlwaysCallable read }
        ensures read { Taken (FnReturnsAt F.Fn read) self.old result self.new }
        ensures kept { KeepsUnread result self.old self.new }
    {
        let (field, rest) = self.split()?;
        let found = read(field)?;
        self.rest = rest;
        Some(found)
    }

    // The number that is the next field.
    // Kept: `take` is the generic function, and the line shows what is read in the field.
    #[tactic(auto, unfolding(crate::specs::Fields::number))]
    pub fn number(&mut self) -> Option<u64>
        ensures read { (next : ℕ → List (List ℕ) → Parsed) → number·of self.old next ≡ after result self.new next }
        ensures kept { KeepsUnread result self.old self.new }
    {
        self.take(number_in)
    }

    // The one byte that is the next field.
    // Kept: `take` is the generic function, and the line shows what is read in the field.
    #[tactic(auto, unfolding(crate::specs::Fields::letter_or))]
    pub fn letter(&mut self) -> Option<u8>
        ensures read { (other : Parsed) (next : ℕ → List (List ℕ) → Parsed)
            → letter_or self.old other next ≡ after_letter result self.new other next }
        ensures kept { KeepsUnread result self.old self.new }
    {
        self.take(letter_in)
    }

    // The flag A or P.
    // Kept: `take` is the generic function, and the line shows what is read in the field.
    #[tactic(auto, unfolding(crate::specs::Kinds::extent, crate::specs::Fields::letter_or))]
    pub fn extent(&mut self) -> Option<Extent>
        ensures read { (next : ExtentNext) → extent·of self.old next ≡ after result self.new next }
        ensures kept { KeepsUnread result self.old self.new }
    {
        self.take(extent_in)
    }

    // The flag S or K.
    // Kept: `take` is the generic function, and the line shows what is read in the field.
    #[tactic(auto, unfolding(crate::specs::Kinds::finish, crate::specs::Fields::letter_or))]
    pub fn finish(&mut self) -> Option<Finish>
        ensures read { (next : FinishNext) → finish·of self.old next ≡ after result self.new next }
        ensures kept { KeepsUnread result self.old self.new }
    {
        self.take(finish_in)
    }

    // E, L or a named point.
    // Kept: `take` is the generic function, and the line shows what is read in the field.
    #[tactic(auto, unfolding(crate::specs::Kinds::pick, crate::specs::Fields::letter_or, crate::specs::Fields::number))]
    pub fn pick(&mut self) -> Option<Pick>
        ensures read { (next : PickNext) → pick·of self.old next ≡ after result self.new next }
        ensures kept { KeepsUnread result self.old self.new }
    {
        self.take(pick_in)
    }

    // The command that was read, if no field is left.
    #[tactic(auto, unfolding(crate::specs::Fields::done))]
    pub fn done(&self, command: Command) -> Option<Command>
        ensures { result ≡ done·of self.now (Some command) }
    {
        self.rest.is_none().then_some(command)
    }
}
