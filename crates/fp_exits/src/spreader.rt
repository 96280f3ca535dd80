//! The exit that spreads root keys over anchors.
ghost use Rattle.std.specs.Prelude.{◌≡◌, ◌↔◌, ℕ, true, ◌<◌, ◌≤◌, length};
ghost use Rattle.fp_model.specs.Exits.{spread};
ghost use Rattle.fp_exits.specs.Ranges.{IsSpreadable};

use fp_model::Kind;

/// A function from a key and a number of places to one of these places, counted from 0.
pub type Spreading = Box<dyn Fn(&[u8], u64) -> u64>;

/// A stored function that spreads keys as its kind does.
#[derive(Drop)]
pub struct Spreader {
    kind: Kind,
    f: Spreading,
    ghost may_call: { (key : _) (n : ℕ) → IsSpreadable key.now n → Spreading.pre f key n },
    ghost spreads: { (key : _) (n : ℕ) (place : ℕ) → IsSpreadable key.now n → Spreading.post f key n place
        → place ≡ spread kind n key.now },
}

impl Spreader {
    /// Keeps a function as an exit of this kind. On every key of 1 to 64 bytes and for 1 to 65,536 places it must be
    /// free to be called, and give the place that the kind gives.
    pub fn new(kind: Kind, f: Spreading) -> Spreader
        requires may_call { (key : _) (n : ℕ) → IsSpreadable key.now n → Spreading.pre f key n }
        requires spreads { (key : _) (n : ℕ) (place : ℕ) → IsSpreadable key.now n → Spreading.post f key n place
            → place ≡ spread kind n key.now }
        ensures { result.kind ≡ kind }
    {
        Spreader { kind, f }
    }

    /// The place of a key among `n`, counted from 0, by the stored function.
    #[tactic(auto, using(crate::proofs::SpreadLemmas::place_below))]
    pub fn place(&self, key: &[u8], n: u64) -> u64
        requires some { 1 ≤ length key.now }
        requires short { length key.now ≤ 64 }
        requires positive { 1 ≤ n }
        requires bounded { n ≤ 65536 }

        ensures exact { result ≡ spread self.now.kind n key.now }
        ensures below { result < n }
    {
        self.call(key, n)
    }

    // What the stored function gives.
    fn call(&self, key: &[u8], n: u64) -> u64
        requires { IsSpreadable key.now n }
        ensures { result ≡ spread self.now.kind n key.now }
    {
        (self.f)(key, n)
    }

    // Whether it is of this kind.
    pub(crate) fn is_of(&self, kind: Kind) -> bool
        ensures { result ≡ true ↔ self.now.kind ≡ kind }
    {
        self.kind == kind
    }
}
