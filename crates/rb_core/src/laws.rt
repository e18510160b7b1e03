//! Laws of runs: what holds of every run of events. Each law is a public function that does
//! nothing; its contract is the law. Call the function to use the law.
//!
//! The events and their replies determine what was sent and accepted (*world_told*), without a look
//! at the broker.

ghost use Rattle.std.specs.Prelude.{◌≡◌, ◌++◌, ℕ, true, List, Some, None, length, map, slice_get};
ghost use Rattle.std.specs.Prelude.{Err, Ok, Result};
ghost use Rattle.cs_apply.specs.declared.conflict.Conflict.{Conflict};
ghost use Rattle.cs_model.specs.Bytes.{AreBytes};
ghost use Rattle.cs_model.specs.declared.shape.Shape.{Shape};
ghost use Rattle.cs_parse.specs.Progress.{Took};
ghost use Rattle.rb_core.specs.declared.event.Event.{Event};
ghost use Rattle.rb_core.specs.declared.event.Event.TheVariants as event;
ghost use Rattle.rb_core.specs.declared.placing.PlacingRefusal.{PlacingRefusal};
ghost use Rattle.rb_core.specs.declared.publisher.PublisherState.{PublisherState};
ghost use Rattle.rb_core.specs.declared.reply.BrokerRefusal.TheVariants as refusal;
ghost use Rattle.rb_core.specs.declared.reply.Reply.{Reply};
ghost use Rattle.rb_core.specs.declared.reply.Reply.TheVariants as reply;
ghost use Rattle.rb_core.specs.Bodies.{HasChangesets};
ghost use Rattle.rb_core.specs.DeskSteps.{desk_steps};
ghost use Rattle.rb_core.specs.Headline.{HasTakenFed, KeepsHeadline};
ghost use Rattle.rb_core.specs.Moves.{Leads, HasRun, StaysClosed, items_of, IsFront};
ghost use Rattle.rb_sequence.specs.Items.{own_of};
ghost use Rattle.rb_core.specs.Moves.{AreAllOf, IsSending};
ghost use Rattle.rb_core.specs.Outcome.{outcome, delivery_of};
ghost use Rattle.rb_core.specs.Placing.{placing_replies, placing_events, placing};
ghost use Rattle.rb_core.specs.Run.{Answer, IsRunOf, Run, RunsOn};
ghost use Rattle.rb_core.specs.State.{State, IsWorld, bare_tables, empty_world};
ghost use Rattle.rb_core.specs.Texts.{FeedsByText, EndsByText};
ghost use Rattle.rb_core.specs.Told.{Paired, all_tables_asked, world_told, IsToldBy};
ghost use Rattle.rb_core.specs.World.{Sender, Subscriber, World, world_begun, endpoint_of};
ghost use Rattle.rb_desk.specs.declared.delivery.Delivery.{Delivery};
ghost use Rattle.rb_desk.specs.Limits.{Limits};
ghost use Rattle.rb_desk.specs.Steps.{replay};
ghost use Rattle.rb_sequence.specs.Entry.{Entry};
ghost use Rattle.rb_subscriber.specs.Accept.{brought, ConflictsSingly, HasSingleTables};
ghost use Rattle.rb_subscriber.specs.Batches.{HasBatchTables};
ghost use Rattle.rb_subscriber.specs.declared.refusal.AcceptRefusal.TheVariants as why;
ghost use Rattle.rb_subscriber.specs.Endpoint.{Endpoint};

use crate::courses;
use cs_apply::laws::rows_keep_columns;
use cs_invert::laws::withdrawals_are_admitted;
use cs_parse::laws::{
    feeding_tells_faults, progress_goes_on, progress_tells, reading_is_spelling, refusing_is_fault,
};
use rb_desk::laws::{
    calls_keep_limits, calls_keep_pictures, calls_show_in_outline, replays_are_pictures,
};
use rb_subscriber::laws as endpoints;
use rb_subscriber::laws::accepting_is_step;

/// Every event preserves the invariant of a world (*IsWorld*).
pub fn events_keep_worlds()
    ensures { (old : State) (event : Event) (given : Reply) (new : State)
        → IsWorld old → outcome old event ≡ (given, new) → IsWorld new }
{
    accepting_is_step();
    withdrawals_are_admitted();
    calls_keep_limits();
    calls_keep_pictures();
    calls_show_in_outline();
}

/// Placing a whole changeset preserves the invariant of a world.
pub fn placings_keep_worlds()
    ensures { (old : State) (p : ℕ) (text : List ℕ) (answer : Result ℕ PlacingRefusal) (new : State)
        → IsWorld old → placing old p text ≡ (answer, new) → IsWorld new }
{
    events_keep_worlds();
}

/// Placing a whole changeset is the run of its events. A refused placing leaves the world that the
/// reset of the publisher's stream leaves.
pub fn placings_are_runs()
    ensures placed { (old : State) (p : ℕ) (text : List ℕ) (number : ℕ) (new : State)
        → IsWorld old → placing old p text ≡ (Ok number, new) → (own : ℕ)
        × Run old (placing_events p text) (placing_replies own number) new }
    ensures refused { (old : State) (p : ℕ) (text : List ℕ) (why : PlacingRefusal) (new : State)
        → placing old p text ≡ (Err why, new) → new ≡ (outcome old (event.Reset p)).1 }
{
    events_keep_worlds();
}

/// What `Feed` and `End` reply, for every text that the stream may have taken. `Feed` reports the
/// permanent fault. `End` stages what the text spells or reports its fault, if nothing is staged
/// yet. The bytes fed to the publisher are such a text (*IsToldBy*).
pub fn streams_answer_by_text()
    ensures feed { (old : State) (p : ℕ) (bytes : List ℕ) (publisher : PublisherState)
        (text : List ℕ) (given : Reply) (new : State)
        → slice_get old.publishers p ≡ Some publisher → Took publisher.stream text → AreBytes bytes
        → outcome old (event.Feed p bytes) ≡ (given, new)
        → FeedsByText old p publisher text bytes given new }
    ensures end { (old : State) (p : ℕ) (publisher : PublisherState) (text : List ℕ)
        (given : Reply) (new : State) → slice_get old.publishers p ≡ Some publisher
        → publisher.staged ≡ None → Took publisher.stream text
        → outcome old (event.End p) ≡ (given, new)
        → EndsByText old p publisher text given new }
{
    reading_is_spelling();
    refusing_is_fault();
    feeding_tells_faults();
    progress_goes_on();
    progress_tells();
}

/// In every run from an empty world, the events and replies report what the broker has. What they
/// report is a course of moves from the start. These are moves of a world without window, clock,
/// spans and order of deliveries. If the run continues, so does the course.
pub fn runs_are_told()
    ensures told { (limits : Limits) (schema : List Shape) (events : List Event)
        (answers : List Answer) (new : State)
        → IsRunOf limits schema events answers new
        → ((mids : List World) × Leads world_begun mids (world_told schema events answers))
        × IsToldBy schema new (world_told schema events answers) }
    ensures goes_on { (limits : Limits) (schema : List Shape) (events more : List Event)
        (answers later : List Answer) (mid new : State)
        → IsRunOf limits schema events answers mid → RunsOn mid more later new
        → ((mids : List World) × Leads (world_told schema events answers) mids
        (world_told schema (events ++ more) (answers ++ later)))
        × IsToldBy schema new (world_told schema (events ++ more) (answers ++ later)) }
    ensures world { (limits : Limits) (schema : List Shape) (events : List Event)
        (answers : List Answer) (new : State) → IsRunOf limits schema events answers new
        → IsWorld new }
{
    events_keep_worlds();
    replays_are_pictures();
    calls_show_in_outline();
    accepting_is_step();
    progress_goes_on();
    progress_tells();
}

/// In every run, the steps that the events made at the desk lead to the desk's picture, and the
/// world has counted them. So the laws of all lists of steps are laws of a world:
/// `rb_desk::laws::no_number_is_lost` says that nothing placed is lost to its open subscriptions.
pub fn desks_are_replays()
    ensures desk { (limits : Limits) (schema : List Shape) (events : List Event)
        (answers : List Answer) (new : State) → IsRunOf limits schema events answers new
        → new.desk ≡ replay limits (desk_steps (empty_world limits schema) events answers) }
    ensures counted { (limits : Limits) (schema : List Shape) (events : List Event)
        (answers : List Answer) (new : State) → IsRunOf limits schema events answers new
        → new.steps ≡ length (desk_steps (empty_world limits schema) events answers) }
{}

/// In every run, each publisher's stream has taken the bytes fed since the stream began, as events
/// and replies report them. So `streams_answer_by_text` holds for that text. There are as many
/// publishers as the events added.
pub fn streams_take_what_is_fed()
    ensures stream { (limits : Limits) (schema : List Shape) (events : List Event)
        (answers : List Answer) (new : State) (p : ℕ) (publisher : PublisherState)
        → IsRunOf limits schema events answers new
        → slice_get new.publishers p ≡ Some publisher
        → (sender : Sender) × (slice_get (world_told schema events answers).senders p ≡ Some sender)
        × Took publisher.stream sender.text }
    ensures all { (limits : Limits) (schema : List Shape) (events : List Event)
        (answers : List Answer) (new : State) → IsRunOf limits schema events answers new
        → Paired HasTakenFed new.publishers (world_told schema events answers).senders }
{
    runs_are_told();
}

/// At any time of any run, a subscription has accepted one contiguous run of the sequence after its
/// start. No number is skipped, and none comes twice. Its endpoint in the broker is in the same
/// state: start, cursor, link, mark and tables are those of what it accepted. The broker has no
/// other endpoints.
pub fn accepted_is_gapless()
    ensures run { (limits : Limits) (schema : List Shape) (events : List Event)
        (answers : List Answer) (new : State) (s : ℕ) (subscriber : Subscriber)
        → IsRunOf limits schema events answers new
        → slice_get (world_told schema events answers).subscribers s ≡ Some subscriber
        → HasRun new.sequence subscriber
        × (slice_get new.endpoints s ≡ Some (endpoint_of subscriber)) }
    ensures all { (limits : Limits) (schema : List Shape) (events : List Event)
        (answers : List Answer) (new : State) → IsRunOf limits schema events answers new
        → map endpoint_of (world_told schema events answers).subscribers ≡ new.endpoints }
{
    runs_are_told();
    courses::accepted_is_gapless();
}

/// At any time of any run, a publisher's entries in the sequence are a prefix of what it sent, in
/// that order. The rest of what it sent is in the broker's hand or its intake. No two entries have
/// the same publisher and own number, so each sending is placed once.
pub fn sendings_come_once_in_order()
    ensures order { (limits : Limits) (schema : List Shape) (events : List Event)
        (answers : List Answer) (new : State) (p : ℕ) (sender : Sender)
        → IsRunOf limits schema events answers new
        → slice_get (world_told schema events answers).senders p ≡ Some sender
        → IsFront (own_of p (items_of new.sequence)) sender.sent }
    ensures kept { (limits : Limits) (schema : List Shape) (events : List Event)
        (answers : List Answer) (new : State) (p : ℕ) (sender : Sender)
        → IsRunOf limits schema events answers new
        → slice_get (world_told schema events answers).senders p ≡ Some sender
        → AreAllOf p new.sequence new.hand new.intake sender }
    ensures once { (limits : Limits) (schema : List Shape) (events : List Event)
        (answers : List Answer) (new : State) (i j : ℕ) (a b : Entry)
        → IsRunOf limits schema events answers new
        → slice_get new.sequence i ≡ Some a → slice_get new.sequence j ≡ Some b
        → a.item.publisher ≡ b.item.publisher → a.item.own ≡ b.item.own → i ≡ j }
    ensures sent { (limits : Limits) (schema : List Shape) (events : List Event)
        (answers : List Answer) (new : State) (i : ℕ) (entry : Entry)
        → IsRunOf limits schema events answers new → slice_get new.sequence i ≡ Some entry
        → (sender : Sender) × (slice_get (world_told schema events answers).senders
        entry.item.publisher ≡ Some sender) × IsSending sender entry.item }
{
    runs_are_told();
    courses::sendings_come_once_in_order();
}

/// If a run continues after the sequence is closed, it stays closed and nothing more is placed.
/// Once a subscription is closed, it stays closed and accepts nothing more.
pub fn nothing_after_close()
    ensures sequence { (limits : Limits) (schema : List Shape) (events more : List Event)
        (answers later : List Answer) (mid new : State) (last : ℕ)
        → IsRunOf limits schema events answers mid → RunsOn mid more later new
        → mid.desk.closing ≡ Some last
        → (new.desk.closing ≡ Some last) × (new.sequence ≡ mid.sequence) }
    ensures subscription { (limits : Limits) (schema : List Shape) (events more : List Event)
        (answers later : List Answer) (mid new : State) (s : ℕ) (subscriber : Subscriber)
        → IsRunOf limits schema events answers mid → RunsOn mid more later new
        → slice_get (world_told schema events answers).subscribers s ≡ Some subscriber
        → subscriber.closed ≡ true
        → (after : Subscriber)
        × (slice_get (world_told schema (events ++ more) (answers ++ later)).subscribers s
        ≡ Some after) × StaysClosed subscriber after }
{
    runs_are_told();
    courses::nothing_after_close();
}

/// At any time of any run, what the publishers staged and sent, and what is placed, are changesets.
pub fn bodies_are_changesets()
    ensures { (limits : Limits) (schema : List Shape) (events : List Event)
        (answers : List Answer) (new : State) → IsRunOf limits schema events answers new
        → HasChangesets (world_told schema events answers) }
{
    reading_is_spelling();
}

/// Whatever is answered, the tables that the subscriptions began with are those asked for, in
/// order. They are without rows. All of the schema are kept where the event was `Subscribe`, none
/// where it was `SubscribeBare`.
pub fn subscriptions_begin_as_asked()
    ensures { (schema : List Shape) (events : List Event) (answers : List Answer)
        → map (λ q. q.base) (world_told schema events answers).subscribers
        ≡ all_tables_asked schema events answers }
{}

/// At any time of any run, each subscription has an endpoint in the broker. If the changesets that
/// the subscription accepted apply without conflict, one after another, to the tables that it began
/// with, the result is the endpoint's tables. The subscription began with the tables that were
/// asked for (`subscriptions_begin_as_asked`).
pub fn tables_apply_singly()
    ensures { (limits : Limits) (schema : List Shape) (events : List Event)
        (answers : List Answer) (new : State) (s : ℕ) (subscriber : Subscriber)
        → IsRunOf limits schema events answers new
        → slice_get (world_told schema events answers).subscribers s ≡ Some subscriber
        → (end : Endpoint) × (slice_get new.endpoints s ≡ Some end)
        × HasSingleTables subscriber.base subscriber.accepted end.tables
        × (slice_get (all_tables_asked schema events answers) s ≡ Some subscriber.base) }
{
    runs_are_told();
    accepted_is_gapless();
    bodies_are_changesets();
    subscriptions_begin_as_asked();
    courses::tables_apply_singly();
}

/// At any time of any run, each subscription has an endpoint in the broker. The batches that the
/// subscription accepted, each the entries of one delivery, are its accepted entries, in order. The
/// endpoint's tables are what the groups of the batches leave, applied one batch after another to
/// the tables that the subscription began with, those that were asked for
/// (`subscriptions_begin_as_asked`). This holds whether or not the changesets apply singly without
/// conflict.
pub fn tables_are_of_batches()
    ensures { (limits : Limits) (schema : List Shape) (events : List Event)
        (answers : List Answer) (new : State) (s : ℕ) (subscriber : Subscriber)
        → IsRunOf limits schema events answers new
        → slice_get (world_told schema events answers).subscribers s ≡ Some subscriber
        → (end : Endpoint) × (slice_get new.endpoints s ≡ Some end)
        × HasBatchTables subscriber.base subscriber.batches subscriber.accepted end.tables
        × (slice_get (all_tables_asked schema events answers) s ≡ Some subscriber.base) }
{
    runs_are_told();
    accepted_is_gapless();
    subscriptions_begin_as_asked();
    courses::tables_are_of_batches();
}

/// At any time of any run, a subscription that keeps no rows has none: its tables are those that it
/// began with. No delivery to it is refused for a conflict.
pub fn bare_subscriptions_keep_no_rows()
    ensures rows { (limits : Limits) (schema : List Shape) (events : List Event)
        (answers : List Answer) (new : State) (s : ℕ) (subscriber : Subscriber)
        → IsRunOf limits schema events answers new
        → slice_get (world_told schema events answers).subscribers s ≡ Some subscriber
        → subscriber.base ≡ bare_tables schema → subscriber.tables ≡ bare_tables schema }
    ensures conflicts { (limits : Limits) (schema : List Shape) (events : List Event)
        (answers : List Answer) (old : State) (d : ℕ) (delivery : Delivery)
        (subscriber : Subscriber) (conflict : Conflict) (new : State)
        → IsRunOf limits schema events answers old → delivery_of old d ≡ Some delivery
        → slice_get (world_told schema events answers).subscribers delivery.sub ≡ Some subscriber
        → subscriber.base ≡ bare_tables schema
        → outcome old (event.Accept d)
        ≡ (reply.Refused (refusal.Accept (why.Conflict conflict)), new) → ⊥ }
{
    runs_are_told();
    tables_are_of_batches();
    conflicts_are_single();
}

/// Every run keeps the headline: the laws above together. `run` says the same of its own events.
pub fn runs_keep_the_headline()
    ensures { (limits : Limits) (schema : List Shape) (events : List Event)
        (answers : List Answer) (new : State) → IsRunOf limits schema events answers new
        → KeepsHeadline schema events answers new }
{
    runs_are_told();
    streams_take_what_is_fed();
    accepted_is_gapless();
    sendings_come_once_in_order();
    nothing_after_close();
    tables_apply_singly();
    subscriptions_begin_as_asked();
    tables_are_of_batches();
}

/// In every run: if `Accept` is refused for a conflict, the changesets that the delivery would
/// bring conflict too when they are applied one after another to its subscription's tables.
pub fn conflicts_are_single()
    ensures { (limits : Limits) (schema : List Shape) (events : List Event)
        (answers : List Answer) (old : State) (d : ℕ) (conflict : Conflict) (new : State)
        → IsRunOf limits schema events answers old
        → outcome old (event.Accept d)
        ≡ (reply.Refused (refusal.Accept (why.Conflict conflict)), new)
        → (delivery : Delivery) × (subscriber : Subscriber)
        × (delivery_of old d ≡ Some delivery)
        × (slice_get (world_told schema events answers).subscribers delivery.sub
        ≡ Some subscriber)
        × ConflictsSingly subscriber.tables
        (brought old.sequence delivery) }
{
    runs_are_told();
    bodies_are_changesets();
    accepting_is_step();
    rows_keep_columns();
    endpoints::accepted_apply_singly();
    endpoints::conflicts_are_single();
}

/// If the reply to `Accept` is `Accepted`, it names the delivery's subscription, and its cursor is
/// the last number of that delivery. That is the new cursor of the subscription's endpoint.
pub fn accepted_tells_the_cursor()
    ensures { (old : State) (d s cursor : ℕ) (new : State)
        → outcome old (event.Accept d) ≡ (reply.Accepted s cursor, new)
        → (delivery : Delivery) × (end : Endpoint) × (delivery_of old d ≡ Some delivery)
        × (delivery.sub ≡ s) × (delivery.last ≡ cursor)
        × (slice_get new.endpoints s ≡ Some end) × (end.cursor ≡ cursor) }
{
    accepting_is_step();
}

/// In every run the number of a new publisher, and that of a new subscription, is how many came
/// before it.
pub fn new_numbers_count_the_old()
    ensures publisher { (limits : Limits) (schema : List Shape) (events : List Event)
        (answers : List Answer) (mid new : State) (p : ℕ) → IsRunOf limits schema events answers mid
        → outcome mid event.Publisher ≡ (reply.Publisher p, new)
        → p ≡ length (world_told schema events answers).senders }
    ensures subscription { (limits : Limits) (schema : List Shape) (events : List Event)
        (answers : List Answer) (mid new : State) (start s link : ℕ)
        → IsRunOf limits schema events answers mid
        → outcome mid (event.Subscribe start) ≡ (reply.Subscriber s link, new)
        → s ≡ length (world_told schema events answers).subscribers }
    ensures bare { (limits : Limits) (schema : List Shape) (events : List Event)
        (answers : List Answer) (mid new : State) (start s link : ℕ)
        → IsRunOf limits schema events answers mid
        → outcome mid (event.SubscribeBare start) ≡ (reply.Subscriber s link, new)
        → s ≡ length (world_told schema events answers).subscribers }
{
    runs_are_told();
    calls_show_in_outline();
}
