//! Laws of the abstract world: what holds after any moves, whoever makes them. They do not mention
//! the desk. Each law is a public function that does nothing; its contract is the law. Call the
//! function to use the law.

ghost use Rattle.std.specs.Prelude.{◌≡◌, ◌≤◌, ℕ, true, length, List, Some, slice_get};
ghost use Rattle.cs_apply.specs.Columns.{HaveColumns};
ghost use Rattle.rb_core.specs.Moves.{Leads, HasRun, StaysClosed, items_of, IsFront};
ghost use Rattle.rb_sequence.specs.Items.{own_of};
ghost use Rattle.rb_core.specs.Moves.{AreAllOf, IsSending};
ghost use Rattle.rb_core.specs.World.{Sender, Subscriber, World, world_begun};
ghost use Rattle.rb_sequence.specs.Entry.{Entry};
ghost use Rattle.rb_subscriber.specs.Accept.{AreChangesets, HasSingleTables};
ghost use Rattle.rb_subscriber.specs.Batches.{HasBatchTables};

use cs_apply::laws::rows_keep_columns;
use rb_subscriber::laws::{accepted_apply_singly, accepting_is_step};

/// After any moves from the start, a subscription has accepted one contiguous run of the sequence
/// after its start. No number is skipped, and none comes twice. This holds at any time, because any
/// time is the end of the moves before it.
pub fn accepted_is_gapless()
    ensures { (mids : List World) (new : World) (s : ℕ) (subscriber : Subscriber)
        → Leads world_begun mids new → slice_get new.subscribers s ≡ Some subscriber
        → HasRun new.sequence subscriber }
{}

/// Once the sequence is closed, it stays closed and nothing more is placed. Once a subscription is
/// closed, it stays closed and accepts nothing more.
pub fn nothing_after_close()
    ensures sequence { (old : World) (mids : List World) (new : World) (last : ℕ)
        → old.closing ≡ Some last → Leads old mids new
        → (new.closing ≡ Some last) × (new.sequence ≡ old.sequence) }
    ensures subscription { (old : World) (mids : List World) (new : World) (s : ℕ)
        (subscriber : Subscriber) → slice_get old.subscribers s ≡ Some subscriber
        → subscriber.closed ≡ true → Leads old mids new
        → (after : Subscriber) × (slice_get new.subscribers s ≡ Some after)
        × StaysClosed subscriber after }
{}

/// After any moves from the start, a publisher's entries in the sequence are a prefix of what it
/// sent, in that order, and the rest is in hand or in the intake. No two entries have the same
/// publisher and own number, so each sending is placed once. Each entry is a sending of a publisher
/// that was added.
pub fn sendings_come_once_in_order()
    ensures order { (mids : List World) (new : World) (p : ℕ) (sender : Sender)
        → Leads world_begun mids new → slice_get new.senders p ≡ Some sender
        → IsFront (own_of p (items_of new.sequence)) sender.sent }
    ensures kept { (mids : List World) (new : World) (p : ℕ) (sender : Sender)
        → Leads world_begun mids new → slice_get new.senders p ≡ Some sender
        → AreAllOf p new.sequence new.hand new.intake sender }
    ensures once { (mids : List World) (new : World) (i j : ℕ) (a b : Entry)
        → Leads world_begun mids new → slice_get new.sequence i ≡ Some a
        → slice_get new.sequence j ≡ Some b → a.item.publisher ≡ b.item.publisher
        → a.item.own ≡ b.item.own → i ≡ j }
    ensures sent { (mids : List World) (new : World) (i : ℕ) (entry : Entry)
        → Leads world_begun mids new → slice_get new.sequence i ≡ Some entry
        → (sender : Sender) × (slice_get new.senders entry.item.publisher ≡ Some sender)
        × IsSending sender entry.item }
{}

/// After any moves from the start, no entry is withdrawn twice, and each withdrawn entry is placed.
pub fn withdrawn_once()
    ensures once { (mids : List World) (new : World) (i j n : ℕ) → Leads world_begun mids new
        → slice_get new.withdrawn i ≡ Some n → slice_get new.withdrawn j ≡ Some n → i ≡ j }
    ensures placed { (mids : List World) (new : World) (i n : ℕ) → Leads world_begun mids new
        → slice_get new.withdrawn i ≡ Some n → (1 ≤ n) × (n ≤ length new.sequence) }
{}

/// After any moves from the start: if the changesets that a subscription accepted apply without
/// conflict, one after another, to the tables that it began with, the result is its tables. The law
/// requires that all placed bodies are changesets, and that the rows that the subscription began
/// with have a value for each column.
pub fn tables_apply_singly()
    ensures { (mids : List World) (new : World) (s : ℕ) (subscriber : Subscriber)
        → Leads world_begun mids new → slice_get new.subscribers s ≡ Some subscriber
        → AreChangesets new.sequence → HaveColumns subscriber.base
        → HasSingleTables subscriber.base subscriber.accepted subscriber.tables }
{
    accepting_is_step();
    accepted_apply_singly();
    rows_keep_columns();
}

/// After any moves from the start: the batches that a subscription accepted are its accepted
/// entries, in order, and its tables are what the groups of the batches leave, applied one batch
/// after another to the tables it began with.
pub fn tables_are_of_batches()
    ensures { (mids : List World) (new : World) (s : ℕ) (subscriber : Subscriber)
        → Leads world_begun mids new → slice_get new.subscribers s ≡ Some subscriber
        → HasBatchTables subscriber.base subscriber.batches subscriber.accepted
        subscriber.tables }
{}
