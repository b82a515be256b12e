// Points, perspectives and stones of a recorded case.
use crate::words::{Here, read_word, signed};
use capstones::{CapStone, blank};
use geometry::Perspective;
use groups::CapStoneGroup;
use points::Point;
use std::num::f64_from_bits_with_nan;

// The point that stands here.
pub fn read_point(text: &[u8], at: usize) -> Here<Point> {
    let x = read_word(text, at);
    let y = read_word(text, x.next);
    let point = Point {
        x: signed(x.value),
        y: signed(y.value),
    };
    Here {
        value: point,
        next: y.next,
    }
}

// The float that stands here.
fn read_float(text: &[u8], at: usize) -> Here<f64> {
    let bits = read_word(text, at);
    Here {
        value: f64_from_bits_with_nan(bits.value),
        next: bits.next,
    }
}

// Four floats.
fn read_four(text: &[u8], at: usize) -> Here<[f64; 4]> {
    let a = read_float(text, at);
    let b = read_float(text, a.next);
    let c = read_float(text, b.next);
    let d = read_float(text, c.next);
    Here {
        value: [a.value, b.value, c.value, d.value],
        next: d.next,
    }
}

// The perspective that stands here.
pub fn read_perspective(text: &[u8], at: usize) -> Here<Perspective> {
    let low = read_four(text, at);
    let high = read_four(text, low.next);
    let [c0, c1, c2, c3] = low.value;
    let [c4, c5, c6, c7] = high.value;
    let c = Perspective {
        c0: c0,
        c1: c1,
        c2: c2,
        c3: c3,
        c4: c4,
        c5: c5,
        c6: c6,
        c7: c7,
    };
    Here {
        value: c,
        next: high.next,
    }
}

// A stone to be fitted: its corners and its centre. Its perspective is not to matter.
fn read_corners(text: &[u8], at: usize) -> Here<CapStone> {
    let none = blank();
    let c = none.c;
    let p0 = read_point(text, at);
    let p1 = read_point(text, p0.next);
    let p2 = read_point(text, p1.next);
    let p3 = read_point(text, p2.next);
    let p4 = read_point(text, p3.next);
    let corner0 = p0.value;
    let corner1 = p1.value;
    let corner2 = p2.value;
    let corner3 = p3.value;
    let center = p4.value;
    let stone = CapStone {
        corner0: corner0,
        corner1: corner1,
        corner2: corner2,
        corner3: corner3,
        center: center,
        c: c,
    };
    Here {
        value: stone,
        next: p4.next,
    }
}

// Three stones to be fitted.
pub fn read_group(text: &[u8], at: usize) -> Here<CapStoneGroup> {
    let a = read_corners(text, at);
    let b = read_corners(text, a.next);
    let c = read_corners(text, b.next);
    let first = a.value;
    let second = b.value;
    let third = c.value;
    let group = CapStoneGroup {
        first: first,
        second: second,
        third: third,
    };
    Here {
        value: group,
        next: c.next,
    }
}

// A stone to be ranked: its centre and its perspective. Its corners are not to matter.
pub fn read_seen(text: &[u8], at: usize) -> Here<CapStone> {
    let nowhere = Point { x: 0, y: 0 };
    let p = read_point(text, at);
    let seen = read_perspective(text, p.next);
    let center = p.value;
    let c = seen.value;
    let stone = CapStone {
        corner0: nowhere,
        corner1: nowhere,
        corner2: nowhere,
        corner3: nowhere,
        center: center,
        c: c,
    };
    Here {
        value: stone,
        next: seen.next,
    }
}
