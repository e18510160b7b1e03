//! Laws of a broker that has ended: its headline, and what a drained subscription has. Each law is
//! a public function that does nothing. Its contract is the law; call the function to use it.

ghost use Rattle.std.specs.Prelude.{◌≡◌, ℕ, List};
ghost use Rattle.rb_broker.specs.Publishers.{PublisherView};
ghost use Rattle.rb_close.specs.Finishing.{Finishes};
ghost use Rattle.rb_close.specs.Headline.{HasAcceptedAll, KeepsRunningHeadline, ShowsPlaced};
ghost use Rattle.rb_close.specs.Meeting.{HasMet};
ghost use Rattle.rb_sequence.specs.Cells.{Cells, LastToken};
ghost use Rattle.rb_sequence.specs.Item.{Item};
ghost use Rattle.rb_sequencer.specs.Turns.{SequencerState};
ghost use Rattle.rb_subscriber.specs.Accept.{HasSingleTables};
ghost use Rattle.rb_subscriber.specs.Shown.{entries_told};
ghost use Rattle.rb_subscriber.specs.Subscription.{SubscriptionState, cursor_of};

/// A subscription that has met the sequencer up to its cursor keeps the headline
/// (*KeepsRunningHeadline*), once the broker is finished. What the law asks for is what the calls
/// show: `Sequencer::placed` and `hand`, `meet_sequencer`, `finish`, and `Subscription::tables`.
pub fn finished_keeps_headline()
    ensures { (cells : Cells) (publishers : List PublisherView) (sequencer : SequencerState)
        (placed : ℕ) (left : List Item) (closing : LastToken) (subscription : SubscriptionState)
        → ShowsPlaced cells sequencer
        → Finishes cells publishers sequencer placed left closing
        → HasMet sequencer subscription
        → HasSingleTables subscription.base (entries_told subscription.told) subscription.tables
        → KeepsRunningHeadline cells publishers sequencer closing subscription }
{}

/// A subscription that is drained has accepted all that was placed after its start, once it has met
/// the sequencer and the broker is finished. `Broker::take` says `Drained` with a token of the
/// closing cell that shows the cursor, and `ToldLast::same` shows that it and the token of `finish`
/// have one last number.
pub fn drained_has_accepted_all()
    ensures { (cells : Cells) (publishers : List PublisherView) (sequencer : SequencerState)
        (placed : ℕ) (left : List Item) (closing drained : LastToken)
        (subscription : SubscriptionState)
        → Finishes cells publishers sequencer placed left closing
        → HasMet sequencer subscription
        → drained.last ≡ cursor_of subscription → drained.last ≡ closing.last
        → HasAcceptedAll sequencer subscription }
{}
