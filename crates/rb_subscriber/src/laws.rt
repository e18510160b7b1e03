//! Laws of endpoints: what holds of every delivery. Each law is a public function that does
//! nothing; its contract is the law. Call the function to use the law.

ghost use Rattle.std.specs.Prelude.{◌≡◌, ◌≤◌, ◌↔◌, ◌++◌, ◌-◌, ℕ, suc, List, Ok, Err, length};
ghost use Rattle.cs_apply.specs.declared.conflict.Conflict.{Conflict};
ghost use Rattle.cs_apply.specs.Columns.{HaveColumns};
ghost use Rattle.cs_apply.specs.State.{TableState};
ghost use Rattle.rb_desk.specs.declared.delivery.Delivery.{Delivery};
ghost use Rattle.rb_sequence.specs.Entry.{Entry};
ghost use Rattle.rb_subscriber.specs.Endpoint.{Endpoint};
ghost use Rattle.rb_subscriber.specs.Accept.{accept, accept_brought, AcceptsBrought, brought};
ghost use Rattle.rb_subscriber.specs.Accept.{accepted_entries, part};
ghost use Rattle.rb_subscriber.specs.Accept.{AppliesSingly, AreChangesets, ConflictsSingly};
ghost use Rattle.rb_subscriber.specs.declared.refusal.AcceptRefusal.TheVariants as refusal;

use cs_apply::laws::{applying_goes_on, rows_keep_columns};
use cs_group::laws::groups_apply;

/// `accept_brought` returns an endpoint exactly if *AcceptsBrought* holds of the entries, the
/// delivery and that endpoint.
pub fn accepting_is_step()
    ensures { (old : Endpoint) (entries : List Entry) (delivery : Delivery) (new : Endpoint)
        → (accept_brought old entries delivery ≡ Ok new) ↔ AcceptsBrought old entries delivery new }
{}

/// What an endpoint has accepted is one contiguous run of the sequence after its start. An accepted
/// delivery continues at the cursor, so nothing is skipped and nothing comes twice. Entries placed
/// later do not change it.
pub fn accepted_is_a_run()
    ensures goes_on { (old : Endpoint) (sequence : List Entry) (delivery : Delivery)
        (new : Endpoint)
        → old.start ≤ old.cursor → accept old sequence delivery ≡ Ok new
        → accepted_entries sequence new ≡ accepted_entries sequence old
        ++ brought sequence delivery }
    ensures stays { (endpoint : Endpoint) (sequence more : List Entry)
        → endpoint.start ≤ endpoint.cursor → endpoint.cursor ≤ length sequence
        → accepted_entries (sequence ++ more) endpoint ≡ accepted_entries sequence endpoint }
    ensures brought { (sequence : List Entry) (delivery : Delivery) (cursor : ℕ)
        → delivery.first ≡ suc cursor
        → brought sequence delivery ≡ part sequence cursor (delivery.last - cursor) }
{}

/// If the changesets of an accepted delivery, applied one after another, don't conflict, the tables
/// after it are the result of that. The changesets are valid, and the rows have their columns, as
/// those of entries and of `Tables` do.
pub fn accepted_apply_singly()
    ensures { (old : Endpoint) (entries : List Entry) (delivery : Delivery) (new : Endpoint)
        (tables : TableState) → AreChangesets entries
        → HaveColumns old.tables → accept_brought old entries delivery ≡ Ok new
        → AppliesSingly old.tables entries tables → new.tables ≡ tables }
{
    applying_goes_on();
    groups_apply();
}

/// A delivery is refused for a conflict only where its changesets, applied one after another,
/// conflict too: those before some changeset apply, and that one doesn't.
pub fn conflicts_are_single()
    ensures { (old : Endpoint) (entries : List Entry) (delivery : Delivery) (conflict : Conflict)
        → AreChangesets entries → HaveColumns old.tables
        → accept_brought old entries delivery ≡ Err (refusal.Conflict conflict)
        → ConflictsSingly old.tables entries }
{
    applying_goes_on();
    groups_apply();
}

/// Changesets that apply one after another without conflict leave rows with a value for each
/// column, if the rows before have one.
pub fn singly_keeps_columns()
    ensures { (old : TableState) (entries : List Entry) (new : TableState) → AreChangesets entries
        → HaveColumns old → AppliesSingly old entries new → HaveColumns new }
{
    rows_keep_columns();
}
