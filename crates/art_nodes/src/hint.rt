//! What is proved, told to the compiler.
ghost use Rattle.std.specs.Prelude.{IsTrue};

/// Tells the compiler that this holds, as its caller has proved, so that it drops what tests it again. An example is a
/// test whether a name is held, in code that owes that it is. It does nothing. std's `assert_unchecked` gives no such
/// hint.
///
/// If this is false, the body writes through a reference out of an empty slice. No call gets there, and LLVM, which
/// sees that nothing can come of such a write, takes this for true from here on.
#[inline(always)]
pub fn assume_proved(holds: bool)
    requires { IsTrue holds }
    ensures { IsTrue holds }
{
    if !holds {
        let none: &mut [&mut u8] = &mut [];
        *none[0] = 0;
    }
}
