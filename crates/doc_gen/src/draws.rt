//! The numbers by which all choices are made.

ghost use Rattle.std.specs.Prelude.{◌≡◌, ◌+◌, ◌*◌, ◌/◌, ◌%◌, ◌^◌};
ghost use Rattle.doc_gen.specs.Project as project_spec;

// The number behind this one.
pub(crate) fn next_draw(draw: u64) -> u64
    ensures { result ≡ (draw * 6364136223846793005 + 1442695040888963407) % 2 ^ 64 }
{
    draw.wrapping_mul(6364136223846793005)
        .wrapping_add(1442695040888963407)
}

// The draw of this place behind a number.
pub(crate) fn draw_at(number: u64, place: u32) -> u64
    ensures { result ≡ project_spec.drawn number place }
{
    let mut draw = number;
    for _ in 0..place {
        draw = next_draw(draw);
    }
    draw
}

// The value of a draw: its upper bits.
pub(crate) fn value_of(draw: u64) -> u64
    ensures { result ≡ draw / 2 ^ 33 }
{
    draw >> 33
}
