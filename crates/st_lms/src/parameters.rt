ghost use Rattle.std.specs.Prelude.{◌≡◌, ◌≤◌, ◌^◌, MatchOption};
ghost use Rattle.st_lms.specs.OneTime.{IsOneTimeType, IsTreeType, width, chains, shift, greatest_digit, height, one_time_number, tree_number};

/// An LM-OTS parameter set, named by how many bits a digit has.
#[derive(Clone, Copy, Debug, PartialEq, Eq)]
pub(crate) enum OneTimeType {
    Width1,
    Width2,
    Width4,
    Width8,
}

/// A row of the table of LM-OTS parameter sets (RFC 8554, section 4.1): the number of the type, the
/// bits of a digit, the greatest digit, the number of signed digits, and the shift of the checksum.
#[derive(Clone, Copy, Debug)]
pub(crate) struct Parameters {
    pub(crate) number: u32,
    pub(crate) width: usize,
    pub(crate) greatest_digit: u8,
    pub(crate) chains: u16,
    pub(crate) shift: u32,
}

impl OneTimeType {
    /// The type with this number.
    pub(crate) fn read(number: u32) -> Option<OneTimeType>
        ensures { MatchOption result (¬ IsOneTimeType number)
            (λ kind. one_time_number kind ≡ number) }
    {
        match number {
            1 => Some(OneTimeType::Width1),
            2 => Some(OneTimeType::Width2),
            3 => Some(OneTimeType::Width4),
            4 => Some(OneTimeType::Width8),
            _ => None,
        }
    }

    #[tactic(auto, unfolding(crate::specs::OneTime::width, crate::specs::OneTime::greatest_digit, crate::specs::OneTime::chains, crate::specs::OneTime::shift))]
    pub(crate) fn parameters(self) -> Parameters
        ensures number { result.number ≡ one_time_number self }
        ensures width { result.width ≡ width (one_time_number self) }
        ensures greatest_digit { result.greatest_digit ≡ greatest_digit (one_time_number self) }
        ensures chains { result.chains ≡ chains (one_time_number self) }
        ensures shift { result.shift ≡ shift (one_time_number self) }
        ensures known { IsOneTimeType (one_time_number self) }
    {
        let (number, width, greatest_digit, chains, shift) = match self {
            OneTimeType::Width1 => (1, 1, 1, 265, 7),
            OneTimeType::Width2 => (2, 2, 3, 133, 6),
            OneTimeType::Width4 => (3, 4, 15, 67, 4),
            OneTimeType::Width8 => (4, 8, 255, 34, 0),
        };
        Parameters {
            number,
            width,
            greatest_digit,
            chains,
            shift,
        }
    }
}

/// An LMS parameter set, named by the height of its tree.
#[derive(Clone, Copy, Debug, PartialEq, Eq)]
pub(crate) enum TreeType {
    Height5,
    Height10,
}

impl TreeType {
    /// The type with this number.
    pub(crate) fn read(number: u32) -> Option<TreeType>
        ensures { MatchOption result (¬ IsTreeType number) (λ kind. tree_number kind ≡ number) }
    {
        match number {
            5 => Some(TreeType::Height5),
            6 => Some(TreeType::Height10),
            _ => None,
        }
    }

    pub(crate) fn number(self) -> u32
        ensures number { result ≡ tree_number self }
        ensures known { IsTreeType (tree_number self) }
    {
        match self {
            TreeType::Height5 => 5,
            TreeType::Height10 => 6,
        }
    }

    #[tactic(auto, unfolding(crate::specs::OneTime::height))]
    pub(crate) fn height(self) -> u32
        ensures { result ≡ height (tree_number self) }
    {
        match self {
            TreeType::Height5 => 5,
            TreeType::Height10 => 10,
        }
    }

    /// The number of leaves of the tree.
    #[tactic(auto, unfolding(crate::specs::OneTime::height))]
    pub(crate) fn leaf_count(self) -> u32
        ensures count { result ≡ 2 ^ height (tree_number self) }
        ensures small { result ≤ 1024 }
    {
        match self {
            TreeType::Height5 => 32,
            TreeType::Height10 => 1024,
        }
    }
}
