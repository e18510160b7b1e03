//! The sequencer's thread: places what is sent, and closes the sequence at its end.

use crate::signs::Signs;
use rb_broker::{Broker, BrokerBrand, PlaceError};
use rb_sequencer::{Sequencer, Turn};
use rb_subscriber::Stake;
use std::alloc::{AllocError, Global};
use std::sync::Wait;

/// Takes turns. Closes the sequence at a turn that is refused, or at an idle one that began after
/// all publishers had ended.
pub fn place<L: BrokerBrand, R: Wait>(
    rt: &R,
    alloc: Global,
    broker: &Broker<L>,
    signs: &Signs,
    sequencer: &mut Sequencer<L>,
    keeper: &mut Stake<L>,
) -> Result<(), AllocError> {
    let mut looks: u64 = 0;
    for _ in rt.forever() {
        let seen = signs.sent.rings();
        if signs.is_stopped() {
            return Ok(());
        }
        let all_sent = signs.all_sent();
        match sequencer.turn(rt, alloc, broker) {
            Turn::Placed(_) => {
                looks = 0;
                signs.progress.set_placed(sequencer.placed());
                signs.pulled.ring();
                signs.placed.ring();
            }
            Turn::Idle(_) if !all_sent => {
                signs.sent.wait(rt, seen, looks);
                looks = looks.saturating_add(1);
            }
            Turn::Refused(PlaceError::Memory) => return Err(AllocError),
            Turn::Idle(_) | Turn::Refused(_) => return Ok(close(rt, broker, signs, keeper)),
        }
    }
    unreachable!()
}

// closes the sequence, and tells all who wait
fn close<L: BrokerBrand, R: Wait>(
    rt: &R,
    broker: &Broker<L>,
    signs: &Signs,
    keeper: &mut Stake<L>,
) {
    if broker.close(rt, keeper).is_none() {
        signs.stop();
    }
    signs.pulled.ring();
    signs.placed.ring();
}
