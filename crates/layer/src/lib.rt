// The places of a layer's classes: the bytes of the arcs.
#![tactic(auto)]

ghost use Rattle.std.specs.Prelude.{◌≡◌, map, ◌≤◌};
ghost use Rattle.meaning.specs.Diagram.{place_byte};
ghost use Rattle.layer.specs.Places.{builder_of, placed};

// Which diagram is built.
#[derive(Clone, Copy, Debug, PartialEq, Eq)]
pub enum Builder {
    // States past the width share the last place: no lawful plan is lost.
    Relaxed,
    // States past the width are dropped: every plan that is left is lawful.
    Restricted,
}

// The byte of an arc to the class at place k: its place plus 1; past the width the last place (relaxed) or none (restricted).
fn place_byte(builder: Builder, w: usize, k: usize) -> usize
    requires { 1 ≤ w }
    ensures { result ≡ place_byte (builder_of builder) w k }
{
    if k < w {
        k + 1
    } else {
        match builder {
            Builder::Relaxed => w,
            Builder::Restricted => 0,
        }
    }
}

// The byte of an arc by the byte of its class: none stays none.
fn placed(builder: Builder, w: usize, class: u8) -> u8
    requires { (1 ≤ w) × (w ≤ 16) }
    ensures { result ≡ placed (builder_of builder) w class }
{
    match class {
        0 => 0,
        _ => place_byte(builder, w, class as usize - 1) as u8,
    }
}

// Second pass: every class gets its place.
pub fn place_arcs(builder: Builder, w: usize, arcs: &mut [u8])
    requires { (1 ≤ w) × (w ≤ 16) }
    ensures { arcs.new ≡ map (placed (builder_of builder) w) arcs.old }
{
    for c in arcs.iter_mut() {
        *c = placed(builder, w, *c);
    }
}
