// The truth tables and the comparisons, entry by entry.
use cells::cell::Cell;
use cells::sign::Sign;
use cells::truth::Truth;

#[test]
fn or_and_their_table(rt: HostRuntime) {
    let (f, u, t) = (Truth::False, Truth::Unknown, Truth::True);
    for (a, b, either, both) in [
        (f, f, f, f),
        (f, u, u, f),
        (f, t, t, f),
        (u, f, u, f),
        (u, u, u, u),
        (u, t, t, u),
        (t, f, t, f),
        (t, u, t, u),
        (t, t, t, t),
    ] {
        assert_eq!(rt; a.or(b), either);
        assert_eq!(rt; a.and(b), both);
    }
}

#[test]
fn not_and_unknown(rt: HostRuntime) {
    let (f, u, t) = (Truth::False, Truth::Unknown, Truth::True);
    for (a, negated, unknown) in [(f, t, f), (u, u, t), (t, f, f)] {
        assert_eq!(rt; a.not(), negated);
        assert_eq!(rt; a.unknown(), unknown);
    }
}

#[test]
fn truth_as_a_cell(rt: HostRuntime) {
    assert_eq!(rt; Cell::from(Truth::True), Cell::Number(1));
    assert_eq!(rt; Cell::from(Truth::False), Cell::Number(0));
    assert_eq!(rt; Cell::from(Truth::Unknown), Cell::Null);
}

#[test]
fn signs_over_numbers(rt: HostRuntime) {
    for (sign, below, equal, above) in [
        (Sign::Equal, false, true, false),
        (Sign::Unequal, true, false, true),
        (Sign::Less, true, false, false),
        (Sign::AtMost, true, true, false),
        (Sign::More, false, false, true),
        (Sign::AtLeast, false, true, true),
    ] {
        for (a, b, holds) in [(-3, 2, below), (-3, -3, equal), (2, -3, above)] {
            assert_eq!(rt;
                sign.compare(Cell::Number(a), Cell::Number(b)),
                Truth::from(holds)
            );
        }
        assert_eq!(rt; sign.compare(Cell::Null, Cell::Number(0)), Truth::Unknown);
        assert_eq!(rt; sign.compare(Cell::Number(0), Cell::Null), Truth::Unknown);
        assert_eq!(rt; sign.compare(Cell::Null, Cell::Null), Truth::Unknown);
    }
}

#[test]
fn sameness(rt: HostRuntime) {
    assert!(rt; Cell::Null.same(Cell::Null));
    assert!(rt; Cell::Number(-1).same(Cell::Number(-1)));
    assert!(rt; !Cell::Null.same(Cell::Number(0)));
    assert!(rt; !Cell::Number(0).same(Cell::Null));
    assert!(rt; !Cell::Number(1).same(Cell::Number(-1)));
}

#[test]
fn stored_range(rt: HostRuntime) {
    for (z, stored) in [
        (0, true),
        (2147483647, true),
        (2147483648, false),
        (-2147483648, true),
        (-2147483649, false),
        (i64::MAX, false),
        (i64::MIN, false),
    ] {
        assert_eq!(rt; Cell::Number(z).is_stored(), stored);
    }
    assert!(rt; Cell::Null.is_stored());
}
