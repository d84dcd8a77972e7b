//! What a merge of two sets gives, as types.
ghost use Rattle.std.specs.Prelude.{◌≡◌, List, true, false};
ghost use Rattle.art_set.specs.Merges.{difference_of, intersection_of, symmetric_difference_of, union_of};
ghost use Rattle.art_set.specs.inner.Merging.{merged};
ghost use Rattle.art_set.specs.lemmas.KindLaws.{difference-merged, intersection-merged, symmetric-merged, union-merged};

use crate::merges::sides::Wanted;
use art_bytes::AsBytes;

/// Which keys a merge of two sets gives.
pub trait Kind<K: AsBytes> {
    ghost use Rattle.art_set.specs.declared.merges.sides.Wanted.{Wanted};

    /// The keys that it gives of two ascending lists.
    ghost keys: { List K → List K → List K };

    /// Which of the two lists have these keys.
    ghost of_lists: { Wanted };

    /// Returns whether it gives the keys that the first set has alone, those of both, and those of the second alone.
    fn wanted() -> Wanted
        ensures { result ≡ of_lists };

    ghost same: { (xs ys : List K)
        → merged K.bytes of_lists.first of_lists.both of_lists.second xs ys ≡ keys xs ys };
}

/// The keys that the first set has alone.
pub struct FirstAlone;

impl<K: AsBytes> Kind<K> for FirstAlone {
    ghost keys = { difference_of K.bytes };

    ghost of_lists = { record { first = true; both = false; second = false } };

    ghost same = { difference-merged K.bytes };

    fn wanted() -> Wanted {
        Wanted {
            first: true,
            both: false,
            second: false,
        }
    }
}

/// The keys that one of the sets has alone.
pub struct OneAlone;

impl<K: AsBytes> Kind<K> for OneAlone {
    ghost keys = { symmetric_difference_of K.bytes };

    ghost of_lists = { record { first = true; both = false; second = true } };

    ghost same = { symmetric-merged K.bytes };

    fn wanted() -> Wanted {
        Wanted {
            first: true,
            both: false,
            second: true,
        }
    }
}

/// The keys that both sets have.
pub struct InBoth;

impl<K: AsBytes> Kind<K> for InBoth {
    ghost keys = { intersection_of K.bytes };

    ghost of_lists = { record { first = false; both = true; second = false } };

    ghost same = { intersection-merged K.bytes };

    fn wanted() -> Wanted {
        Wanted {
            first: false,
            both: true,
            second: false,
        }
    }
}

/// The keys that one of the sets has, or both.
pub struct InEither;

impl<K: AsBytes> Kind<K> for InEither {
    ghost keys = { union_of K.bytes };

    ghost of_lists = { record { first = true; both = true; second = true } };

    ghost same = { union-merged K.bytes };

    fn wanted() -> Wanted {
        Wanted {
            first: true,
            both: true,
            second: true,
        }
    }
}
