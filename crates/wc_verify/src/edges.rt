ghost use Rattle.std.specs.Prelude.{◌≡◌};
ghost use Rattle.wc_verify.specs.Bodies.{joined_edges, kind_of_way, with_way};

use wc_model::Kind;

/// What the incoming paths of a line agree on.
#[derive(Clone, Copy)]
pub(crate) enum Way {
    /// There is none so far.
    Unseen,
    /// All of them bring a result of this kind, or none.
    Agreed(Option<Kind>),
    /// They bring different kinds.
    Different,
}

/// The kind of the result that the incoming paths bring.
pub(crate) fn kind_of(way: Way) -> Option<Kind>
    ensures { result ≡ kind_of_way way }
{
    match way {
        Way::Agreed(kind) => kind,
        _ => None,
    }
}

/// One more way in.
pub(crate) fn with_way(kind: Option<Kind>, way: Way) -> Way
    ensures { result ≡ with_way kind way }
{
    match way {
        Way::Unseen => Way::Agreed(kind),
        Way::Agreed(other) if kind == other => Way::Agreed(kind),
        _ => Way::Different,
    }
}

/// The way from the line above, and then the others.
pub(crate) fn joined_edges(above: Way, others: Way) -> Way
    ensures { result ≡ joined_edges above others }
{
    match above {
        Way::Unseen => others,
        Way::Agreed(kind) => with_way(kind, others),
        Way::Different => Way::Different,
    }
}
