ghost use Rattle.std.specs.Prelude.{◌≡◌};
ghost use Rattle.resolve_names.specs.Matching.{name_matches};

/// Whether two names match: exactly where case counts, else in ASCII lower case. It takes no memory.
pub fn names_match(case_sensitive: bool, a: &str, b: &str) -> bool
    ensures { result ≡ name_matches case_sensitive a.now b.now }
{
    if case_sensitive {
        a == b
    } else {
        a.eq_ignore_ascii_case(b)
    }
}
