ghost use Rattle.std.specs.Prelude.{◌≡◌};
ghost use Rattle.wh_keyindex.specs.Marks.{is_marked};

use wh_base::seq::Seq;

/// Whether a place is marked.
pub fn is_marked(gone: &Seq<bool>, place: u64) -> bool
    ensures { result ≡ is_marked gone.now place }
{
    match gone.get(place as usize) {
        Some(mark) => *mark,
        None => false,
    }
}
