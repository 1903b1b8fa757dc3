//! What a run goes on from.

ghost use Rattle.std.specs.Prelude.{◌≡◌, None};

use certificate::Cert;
use run_settings::Part;
use schedule::Feasible;
use solomon_reader::Instance;

/// The tree of a certificate, and at which of its open leaves the workers of a run work.
#[derive(Clone, Copy)]
pub struct GivenTree<'a> {
    /// The certificate, which the instance accepts.
    pub certificate: &'a Cert,
    /// Which of its open leaves; all where it is out of range.
    pub part: Part,
}

/// What a run goes on from: a plan, and a tree, each where there is one.
#[derive(Drop)]
pub struct Begun<'a, 'i> {
    /// The plan.
    pub start: Option<Feasible<'i>>,
    /// The tree.
    pub tree: Option<GivenTree<'a>>,
}

impl<'a, 'i> Begun<'a, 'i> {
    /// Nothing of an instance.
    pub fn nothing(_instance: &'i Instance) -> Begun<'a, 'i>
        ensures start { result.start ≡ None }
        ensures tree { result.tree ≡ None }
    {
        Begun {
            start: None,
            tree: None,
        }
    }
}
