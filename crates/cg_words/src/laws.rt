//! What the command makes of particular words: each function does nothing, and its contract is the law.
ghost use Rattle.std.specs.Prelude.{[], ◌∷◌, codes};
ghost use Rattle.clap.specs.declared.error.kind.ErrorKind.TheVariants as kind;
ghost use Rattle.cg_words.specs.Literal.{Gives, Refuses, one, two};

/// Words that are refused, and clap's reason.
pub fn refused_words()
    ensures help { Refuses (one (codes "--help")) kind.DisplayHelp }
    ensures short_help { Refuses (one (codes "-h")) kind.DisplayHelp }
    ensures version { Refuses (one (codes "--version")) kind.UnknownArgument }
    ensures zero { Refuses (two (codes "--workers") (codes "0")) kind.ValueValidation }
    ensures too_many { Refuses (two (codes "--workers") (codes "65")) kind.ValueValidation }
    ensures empty { Refuses (one (codes "")) kind.UnknownArgument }
    ensures missing { Refuses (one (codes "--workers")) kind.InvalidValue }
    ensures prefix { Refuses (two (codes "--work") (codes "3")) kind.UnknownArgument }
    ensures twice { Refuses (two (codes "--workers=3") (codes "--workers=3")) kind.ArgumentConflict }
{}

/// Words that are accepted, and the workers, cells, positions and lines of the sample that they give.
pub fn accepted_words()
    ensures none { Gives [] 4 4194304 65536 0 }
    ensures dashes { Gives (one (codes "--")) 4 4194304 65536 0 }
    ensures most { Gives (two (codes "--workers") (codes "64")) 64 4194304 65536 0 }
    ensures joined { Gives (one (codes "--workers=3")) 3 4194304 65536 0 }
    ensures leading_zero { Gives (two (codes "--workers") (codes "03")) 3 4194304 65536 0 }
    ensures plus { Gives (two (codes "--workers") (codes "+3")) 3 4194304 65536 0 }
{}
