ghost use Rattle.text_spec.specs.Tokens.{TokensAreRuns};

/// The members of `tokens_of bytes` are exactly the maximal runs between separators, in ascending order of position.
pub fn tokens_are_runs()
    ensures { TokensAreRuns }
{}
