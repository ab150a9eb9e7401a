ghost use Rattle.std.specs.Prelude.{◌≡◌};
ghost use Rattle.std.specs.Option.{option_map};
ghost use Rattle.text.specs.Line.{spelt};
ghost use Rattle.value.specs.Bearings.{on_circle, turned_on, turned_back, held, bearing_form, bearing_at};
ghost use Rattle.value.specs.Hex.{hexed};

use crate::codes::Fault;
use crate::forms::opened;
use crate::hex::{push_hex, read_hex};
use text::Line;

// A float's bits: of the sign alone, which is minus zero, and of infinity, past which stand the NaNs.
const SIGN: u32 = 0x8000_0000;

const INFINITY: u32 = 0x7f80_0000;

// At least 0 and below 360.
pub fn is_on_circle(x: f32) -> bool
    ensures { result ≡ on_circle x }
{
    0.0 <= x && x < 360.0
}

pub fn turn_on(a: f32, b: f32) -> f32
    ensures { result ≡ turned_on a b }
{
    let x = a + b;
    if 360.0 <= x { x - 360.0 } else { x }
}

pub fn turn_back(a: f32, b: f32) -> f32
    ensures { result ≡ turned_back a b }
{
    let x = a - b;
    if x < 0.0 {
        let y = x + 360.0;
        if y == 360.0 { 0.0 } else { y }
    } else {
        x
    }
}

// From 0 to 360, and not minus zero.
fn is_held(x: f32) -> bool
    ensures { result ≡ held x }
{
    0.0 <= x && x <= 360.0 && x.to_bits() != SIGN
}

// The bearing whose bits the part writes in hexadecimal digits.
#[tactic(auto, using(crate::specs::Floats::nan_past, crate::specs::Floats::no_nan))]
pub fn read_bearing(part: &[u8]) -> Result<f32, Fault>
    ensures { result ≡ bearing_at (hexed part.now) }
{
    let bits = read_hex(part).ok_or(Fault::Form)?;
    if bits % SIGN > INFINITY {
        return Err(Fault::Bound);
    }
    let x = f32::from_bits(bits);
    if is_held(x) { Ok(x) } else { Err(Fault::Bound) }
}

// `(a BITS)`, for a bearing that a sheet may hold.
#[tactic(auto, using(crate::proofs::Writing::closing_hex))]
pub fn spell_bearing(x: f32) -> Option<Line>
    ensures { option_map spelt result ≡ bearing_form x }
{
    if !is_held(x) {
        return None;
    }
    let mut line = opened(b'a');
    push_hex(&mut line, x.to_bits());
    line.push(b')');
    Some(line)
}
