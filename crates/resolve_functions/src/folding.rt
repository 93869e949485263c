ghost use Rattle.std.specs.Prelude.{◌≡◌};
ghost use Rattle.std.specs.Str.{str_eq_ignore_ascii_case};

/// Whether a name is this one, in either case.
pub(crate) fn is_name(name: &str, own: &str) -> bool
    ensures { result ≡ str_eq_ignore_ascii_case name.now own.now }
{
    name.eq_ignore_ascii_case(own)
}
