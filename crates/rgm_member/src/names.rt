ghost use Rattle.std.specs.Prelude.{◌≡◌, IfSome};
ghost use Rattle.rg_props.specs.Words.{name_in};

use cl_base::Name;

/// The name that the text is, if it is one.
pub fn name_of(text: &[u8]) -> Option<Name>
    ensures value { result ≡ name_in text.now }
    ensures same { IfSome result (λ name. name ≡ text.now) }
{
    Name::new(text).ok()
}
