//! Whether two bodies are equal, which takes no memory.

ghost use Rattle.std.specs.Prelude.{◌≡◌, ◌↔◌, IsTrue, IfSome, is_some, true, unwrap_or};
ghost use Rattle.aw_body.specs.Bodies.{AreAlike, IsBody};
ghost use Rattle.aw_body.specs.BodyPatches.{difference};

use aw_body::{Body, difference_gives_newer};

/// Whether two bodies of one form are equal.
fn is_same(one: &Body, other: &Body) -> bool
    requires { AreAlike one.now other.now }
    ensures { IsTrue result ↔ (one.now ≡ other.now) }
{
    match (one, other) {
        (Body::Dim(one), Body::Dim(other)) => one == other,
        (Body::Set(one), Body::Set(other)) => one == other,
        (Body::Rel(one), Body::Rel(other)) => one == other,
        (Body::Var(one), Body::Var(other)) => one == other,
        _ => false,
    }
}

/// A body that stands above another of its form, or nothing where they are equal.
pub fn above(body: Body, below: &Body) -> Option<Body>
    requires alike { AreAlike below.now body }
    requires body { IsBody body }
    requires below { IsBody below.now }
    ensures value { unwrap_or result below.now ≡ body }
    ensures differs { IfSome result (λ found. is_some (difference below.now found) ≡ true) }
{
    difference_gives_newer();
    if is_same(below, &body) {
        None
    } else {
        Some(body)
    }
}
