//! `Config`: the limits of a broker, checked against their ranges.

ghost use Rattle.std.specs.Prelude.{◌≡◌, ◌≤◌, IfOk, IfErr, Ok, Err, None, Some};
ghost use Rattle.rb_desk.specs.Limits.{is_in_range, first_out_of_range, six_limits};

use rb_deliveries::MOST_NUMBERS;
use std::marker::Model;
use thiserror::Error;

/// The limits of a broker, each in its range. Contracts see all six.
#[derive(Clone, Copy, Debug, PartialEq, Eq)]
pub struct Config {
    batch: u64,
    window: u64,
    timeout: u64,
    capacity: u64,
    intake: u64,
    appliers: u64,
}

/// Which operand `Config::new` refuses: the first that is out of its range. No `Config` is made.
#[derive(Clone, Copy, Debug, PartialEq, Eq, Error)]
pub enum ConfigFault {
    #[error("batch is 1 to 256")]
    Batch,
    #[error("window is 1 to 64")]
    Window,
    #[error("timeout is 1 to 1000000000")]
    Timeout,
    #[error("capacity is 1 to 16777216")]
    Capacity,
    #[error("intake is 1 to 4096")]
    Intake,
    #[error("appliers is 1 to 16")]
    Appliers,
}

impl Model for Config {
    ghost use Rattle.std.specs.Prelude.{◌≡◌, None};
    ghost use Rattle.rb_desk.specs.Limits.{Limits, six_limits, first_out_of_range};

    ghost Value = { Limits };

    ghost view = { λ c. six_limits c.batch c.window c.timeout c.capacity c.intake c.appliers };

    ghost invariant = { λ c.
        first_out_of_range c.batch c.window c.timeout c.capacity c.intake c.appliers ≡ None };

    ghost inverse = { λ v. record {
      batch = v.batch;
      window = v.window;
      timeout = v.timeout;
      capacity = v.capacity;
      intake = v.intake;
      appliers = v.appliers;
    } };
}

impl Config {
    /// Makes a configuration from these limits:
    /// - `batch`: the most numbers in a delivery
    /// - `window`: the most deliveries in flight to a subscription
    /// - `timeout`: after how many ticks a delivery expires
    /// - `capacity`: the most entries of the sequence
    /// - `intake`: the most changesets that wait to be placed
    /// - `appliers`: how many workers apply a changeset
    ///
    /// Refuses the first that is out of its range.
    pub fn new(
        batch: u64,
        window: u64,
        timeout: u64,
        capacity: u64,
        intake: u64,
        appliers: u64,
    ) -> Result<Config, ConfigFault>
        ensures ok { IfOk result (λ config.
            config ≡ six_limits batch window timeout capacity intake appliers) }
        ensures valid { IfOk result (λ config.
            first_out_of_range batch window timeout capacity intake appliers ≡ None) }
        ensures refused { IfErr result (λ fault.
            first_out_of_range batch window timeout capacity intake appliers ≡ Some fault) }
    {
        match first_fault(batch, window, timeout, capacity, intake, appliers) {
            Some(fault) => Err(fault),
            None => Ok(Config {
                batch,
                window,
                timeout,
                capacity,
                intake,
                appliers,
            }),
        }
    }

    /// The default limits: batch 16, window 4, timeout 10, capacity 65,536, intake 64 and one
    /// applier.
    pub fn standard() -> Config
        ensures { result ≡ six_limits 16 4 10 65536 64 1 }
    {
        Config {
            batch: 16,
            window: 4,
            timeout: 10,
            capacity: 65_536,
            intake: 64,
            appliers: 1,
        }
    }

    /// The most numbers in a delivery, 1 to 256.
    pub fn batch(&self) -> u64
        ensures value { result ≡ self.now.batch }
        ensures range { (1 ≤ result) × (result ≤ 256) }
    {
        self.batch
    }

    /// The most deliveries in flight to a subscription, 1 to 64.
    pub fn window(&self) -> u64
        ensures { result ≡ self.now.window }
    {
        self.window
    }

    /// After how many ticks a delivery expires, 1 to 1,000,000,000.
    pub fn timeout(&self) -> u64
        ensures { result ≡ self.now.timeout }
    {
        self.timeout
    }

    /// The most entries of the sequence, 1 to 16,777,216.
    pub fn capacity(&self) -> u64
        ensures { result ≡ self.now.capacity }
    {
        self.capacity
    }

    /// The most changesets that wait to be placed, 1 to 4,096.
    pub fn intake(&self) -> u64
        ensures value { result ≡ self.now.intake }
        ensures range { (1 ≤ result) × (result ≤ 4096) }
    {
        self.intake
    }

    /// How many workers apply a changeset, 1 to 16.
    pub fn appliers(&self) -> u64
        ensures value { result ≡ self.now.appliers }
        ensures range { (1 ≤ result) × (result ≤ 16) }
    {
        self.appliers
    }
}

fn first_fault(
    batch: u64,
    window: u64,
    timeout: u64,
    capacity: u64,
    intake: u64,
    appliers: u64,
) -> Option<ConfigFault>
    ensures { result ≡ first_out_of_range batch window timeout capacity intake appliers }
{
    if !within(batch, 256) {
        Some(ConfigFault::Batch)
    } else if !within(window, 64) {
        Some(ConfigFault::Window)
    } else if !within(timeout, 1_000_000_000) {
        Some(ConfigFault::Timeout)
    } else if !within(capacity, MOST_NUMBERS) {
        Some(ConfigFault::Capacity)
    } else if !within(intake, 4_096) {
        Some(ConfigFault::Intake)
    } else if !within(appliers, 16) {
        Some(ConfigFault::Appliers)
    } else {
        None
    }
}

fn within(n: u64, most: u64) -> bool
    ensures { result ≡ is_in_range most n }
{
    1 <= n && n <= most
}
