//! What a name stands for.
ghost use Rattle.std.specs.Prelude.{◌≡◌};

use sc_base::Text;
use sc_syntax::NameKind;

/// Something that knows what names stand for.
pub(crate) trait Names {
    ghost use Rattle.sc_syntax.specs.NameKind.{Kinds};

    ghost kinds: { Self → Kinds };

    fn kind(&self, name: &Text) -> Option<NameKind>
        ensures { result ≡ kinds self.now name.now };
}
