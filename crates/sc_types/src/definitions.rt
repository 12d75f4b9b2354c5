//! What called names take.
ghost use Rattle.std.specs.Prelude.{◌≡◌};
ghost use Rattle.std.specs.Option.{option_copied};
ghost use Rattle.sc_types.specs.Statements.{named_wants};

use crate::want::Want;
use sc_base::Text;

/// Something that knows what the modules and classical functions of a source take.
pub(crate) trait Definitions {
    ghost use Rattle.std.specs.Prelude.{List};
    ghost use Rattle.sc_syntax.specs.Alike.{PurePart};

    ghost parts: { Self → List PurePart };

    /// What the first definition of the name takes, or None where the source defines no such name.
    fn wants(&self, name: &Text) -> Option<&[Want]>
        ensures { option_copied result ≡ named_wants (parts self.now) name.now };
}
