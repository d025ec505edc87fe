//! What is measured.
ghost use Rattle.std.specs.Prelude.{◌≡◌, ◌≤◌, Some};
ghost use Rattle.slatedb_txn_obj_uses.specs.Workloads.{workload_name, versions_before, stores_of_round, calls_of_round};

use std::fmt;

/// A call that is made again and again over a store in memory.
#[derive(Clone, Copy, Debug, PartialEq, Eq)]
pub enum Workload {
    /// An update of an object, which wrote the version before it.
    Update,
    /// A checked read of the newest version, which the protocol holds.
    ReadWarm,
    /// A checked read by a new protocol, where 100 versions stand.
    LoadCold100,
    /// A listing of 10,000 versions.
    List10000,
    /// A load and a claim by a new protocol, where one version stands.
    LoadClaimFresh,
}

impl Workload {
    /// Its name, how many versions stand before its first call, how many stores a round has, and how many calls.
    fn row(self) -> (&'static str, u64, u64, u64)
        ensures name { result.0.now ≡ workload_name self }
        ensures versions { result.1 ≡ versions_before self }
        ensures stores { result.2 ≡ stores_of_round self }
        ensures calls { result.3 ≡ calls_of_round self }
        ensures some { 1 ≤ result.2 × 1 ≤ result.3 }
    {
        match self {
            Workload::Update => ("update", 0, 1, 10_000),
            Workload::ReadWarm => ("read_warm", 1, 1, 20_000),
            Workload::LoadCold100 => ("load_cold_100", 100, 1, 1000),
            Workload::List10000 => ("list_10000", 10_000, 1, 20),
            Workload::LoadClaimFresh => ("load_claim_fresh", 1, 1000, 1000),
        }
    }

    /// How many versions stand before its first call.
    pub fn versions(&self) -> u64
        ensures { result ≡ versions_before self.now }
    {
        self.row().1
    }

    /// How many stores a round has, one after another. Each has as many of its calls.
    pub fn stores(&self) -> u64
        ensures exact { result ≡ stores_of_round self.now }
        ensures some { 1 ≤ result }
    {
        self.row().2
    }

    /// How many calls a round makes.
    pub fn calls(&self) -> u64
        ensures exact { result ≡ calls_of_round self.now }
        ensures some { 1 ≤ result }
    {
        self.row().3
    }
}

/// Its name.
impl fmt::Display for Workload {
    ghost output = { λ workload. Some (workload_name workload) };

    fn fmt<W: fmt::Write>(&self, f: &mut fmt::Formatter<W>) -> fmt::Result {
        f.write_str(self.row().0)
    }
}
