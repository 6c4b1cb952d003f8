// Zooms: which are taken, who lives at one, and the removal zoom that is printed.
#![tactic(auto)]

ghost use Rattle.std.specs.Prelude.{◌≡◌, ◌<◌};
ghost use Rattle.fractions.specs.Order.{Small};
ghost use Rattle.zoom.specs.Zoom.{scale_of, wheel_scale};
ghost use Rattle.zoom.specs.Living.{lives_at};
ghost use Rattle.zoom.specs.Printed.{root, nearest};

use fractions::{Fraction, Value};

// ---- which zooms are taken

// 01: "Stop s, 0 to 16".
const LAST_STOP: u8 = 16;

// 01: "For the viewer a zoom is either a stop or a wheel value."
#[derive(Clone, Copy, Debug, PartialEq)]
pub enum Zoom {
    Stop(u8),
    Wheel(f32),
}

// The tests on w keep the product in range, so that it is exact; the whole part cast back to a float tells that nothing is cut off.
fn wheel_scale(w: f32) -> Option<u32>
    ensures { result ≡ wheel_scale w }
{
    if w >= 0.015625 && w <= 1024.0 {
        let p = w * 64.0;
        let t = std::num::truncating_f32_to_u64(p);
        if t as f32 == p {
            return Some(p as u32);
        }
    }
    None
}

// k = 64z of a zoom that is taken, and none where 12 refuses it. The stop is tested before the shift, whose amount would wrap.
pub fn scale_of(zoom: Zoom) -> Option<u32>
    ensures { result ≡ scale_of zoom }
{
    match zoom {
        Zoom::Stop(s) if s <= LAST_STOP => Some(1 << s),
        Zoom::Stop(_) => None,
        Zoom::Wheel(w) => wheel_scale(w),
    }
}

// ---- living

// Does a mark with the removal value v live at z = k/64?
pub fn lives(v: Value, k: u32) -> bool
    ensures { result ≡ lives_at k v }
{
    let num = k as u64 * k as u64;
    let zoom = Value::At(Fraction { num, den: 4096 });
    fractions::later(v, zoom)
}

// ---- the printed zoom

// The largest number whose square is at most v.
fn root_of(v: u64) -> u64
    ensures { result ≡ root 32 v }
{
    v.isqrt()
}

// The removal zoom to the nearest 64th, an exact half to the even number: from the zoom in 128ths.
pub fn zoom_nearest(f: Fraction) -> u64
    requires { Small f × (0 < f.den) }
    ensures { result ≡ nearest f }
{
    let num = 16384 * f.num;
    let den = f.den as u64;
    let h = root_of(num / den);
    if h % 4 == 1 && h * h * den == num {
        return h / 2;
    }
    (h + 1) / 2
}
