ghost use Rattle.std.specs.Prelude.{◌≡◌};
ghost use Rattle.resolve_functions.specs.Slices.{pair_of, single_of};

use cn_types::DataType;

/// The one type of a list of one.
#[tactic(auto, using(crate::proofs::ListCases::singles))]
pub(crate) fn single(kinds: &[DataType]) -> Option<DataType>
    ensures { result ≡ single_of kinds.now }
{
    if kinds.len() != 1 {
        return None;
    }
    Some(kinds[0])
}

/// The two types of a list of two.
#[tactic(auto, using(crate::proofs::ListCases::pairs))]
pub(crate) fn pair(kinds: &[DataType]) -> Option<(DataType, DataType)>
    ensures { result ≡ pair_of kinds.now }
{
    if kinds.len() != 2 {
        return None;
    }
    Some((kinds[0], kinds[1]))
}
