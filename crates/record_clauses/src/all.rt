// Whether all records of the tables pass a test, here and in `soundness`. Rests on the crate `tables`.
ghost use Rattle.std.specs.Prelude.{◌≡◌, ℕ, Bool};
ghost use Rattle.chains.specs.Lists.{all_to};
ghost use Rattle.tables.specs.declared.views.Record.{Record};

use tables::{Record, Tables};

// The answer is that of any function f of the record's number that the test computes.
pub fn all_records<'a, F>(t: Tables<'a>, test: F) -> bool
where
    F: Fn(Record<'a>) -> bool,
    requires { F.IsAlwaysCallable test }
    ensures { (f : ℕ → Bool)
        → ((r : Record) (b : Bool) → r.tables ≡ t.entry → F.post test r b → b ≡ f r.number)
        → result ≡ all_to t.entry.counts.records f }
{
    for number in 0..t.counts.records {
        if !test(Record { tables: t, number }) {
            return false;
        }
    }
    true
}
