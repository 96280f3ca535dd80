//! The exit that routes transactions to balancing groups.
ghost use Rattle.std.specs.Prelude.{◌≡◌, ◌↔◌, ℕ, true, ◌<◌, ◌≤◌};
ghost use Rattle.fp_model.specs.Exits.{route};
ghost use Rattle.fp_exits.specs.Ranges.{IsRoutable};

use fp_model::{Kind, Name};

/// A function from a transaction's name and a number of groups to one of these groups, counted from 0.
pub type Routing = Box<dyn Fn(&Name, u64) -> u64>;

/// A stored function that routes transactions as its kind does.
#[derive(Drop)]
pub struct Router {
    kind: Kind,
    f: Routing,
    ghost may_call: { (tran : _) (n : ℕ) → IsRoutable tran.now n → Routing.pre f tran n },
    ghost routes: { (tran : _) (n : ℕ) (group : ℕ) → IsRoutable tran.now n → Routing.post f tran n group
        → group ≡ route kind n tran.now },
}

impl Router {
    /// Keeps a function as an exit of this kind. On every name and for 1 to 16 groups it must be free to be called,
    /// and give the group that the kind gives.
    pub fn new(kind: Kind, f: Routing) -> Router
        requires may_call { (tran : _) (n : ℕ) → IsRoutable tran.now n → Routing.pre f tran n }
        requires routes { (tran : _) (n : ℕ) (group : ℕ) → IsRoutable tran.now n → Routing.post f tran n group
            → group ≡ route kind n tran.now }
        ensures { result.kind ≡ kind }
    {
        Router { kind, f }
    }

    /// The group of a transaction among `n`, counted from 0, by the stored function.
    pub fn group(&self, tran: &Name, n: u64) -> u64
        requires positive { 1 ≤ n }
        requires bounded { n ≤ 16 }

        ensures exact { result ≡ route self.now.kind n tran.now }
        ensures below { result < n }
    {
        // A read of the name tells the proof that its bytes are bytes.
        let _first = tran.0[0];
        self.call(tran, n)
    }

    // What the stored function gives.
    fn call(&self, tran: &Name, n: u64) -> u64
        requires { IsRoutable tran.now n }
        ensures { result ≡ route self.now.kind n tran.now }
    {
        (self.f)(tran, n)
    }

    // Whether it is of this kind.
    pub(crate) fn is_of(&self, kind: Kind) -> bool
        ensures { result ≡ true ↔ self.now.kind ≡ kind }
    {
        self.kind == kind
    }
}
