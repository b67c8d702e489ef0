//! Arms that are never reached, without a run-time test (our choice).
#![tactic(auto)]

ghost use Rattle.std.specs.Prelude.{◌≡◌, []};

/// Returns an empty array.
#[inline]
pub fn no_places<'a>() -> [&'a mut u8; 0]
    ensures { result ≡ [] }
{
    []
}

/// Like `unreachable!()`, for the packet path: `unreachable!()` remains a test and a trap in the
/// program, although its proof states that it is never reached, and this macro compiles to nothing.
/// The compiler sees that no arm can write to an element of an empty array.
#[macro_export]
macro_rules! unreachable_unchecked {
    () => {{
        prove!(false);
        let places = $crate::no_places();
        *places[0] = 0;
        unreachable!()
    }};
}
