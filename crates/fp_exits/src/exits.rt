//! All exits of an installation.
ghost use Rattle.std.specs.Prelude.{◌≡◌, ◌↔◌, All, IfSome, IsNone};
ghost use Rattle.fp_exits.specs.First.{IsFirst};

use crate::router::Router;
use crate::spreader::Spreader;
use fp_model::Kind;

/// The installation's exits: those that spread keys, and those that route transactions.
#[derive(Drop)]
pub struct Exits {
    spreaders: Vec<Spreader>,
    routers: Vec<Router>,
}

impl Exits {
    /// The exits that the program was built with. Of two of one kind the first counts.
    pub fn new(spreaders: Vec<Spreader>, routers: Vec<Router>) -> Exits
        ensures spreaders { result.spreaders.items ≡ spreaders.items }
        ensures routers { result.routers.items ≡ routers.items }
    {
        Exits { spreaders, routers }
    }

    /// The first spreader of a kind; `None` where there is none.
    pub fn spreader(&self, kind: Kind) -> Option<&Spreader>
        ensures some { IfSome result (λ found. IsFirst (λ one. one.kind ≡ kind) self.now.spreaders.items found.now) }
        ensures none { IsNone result ↔ All (λ one. ¬ (one.kind ≡ kind)) self.now.spreaders.items }
    {
        for one in &self.spreaders {
            if one.is_of(kind) {
                return Some(one);
            }
        }
        None
    }

    /// The first router of a kind; `None` where there is none.
    pub fn router(&self, kind: Kind) -> Option<&Router>
        ensures some { IfSome result (λ found. IsFirst (λ one. one.kind ≡ kind) self.now.routers.items found.now) }
        ensures none { IsNone result ↔ All (λ one. ¬ (one.kind ≡ kind)) self.now.routers.items }
    {
        for one in &self.routers {
            if one.is_of(kind) {
                return Some(one);
            }
        }
        None
    }
}
