//! The text of rules/sentence.rules, as `bin/make-tables` puts it here.

/// The text.
pub(crate) const SENTENCE: &str =
    r##"# Sentences: the rules SB1 to SB998 of UAX #29, the same in Unicode 15.0 and 18.0.
#
# For rbbi it wants this file of unicode/, or Unicode's own; segment has its property built in:
#   --prop SB=SentenceBreakProperty.txt
#
# Status: 0 where the sentence ends by a terminator, with or without a paragraph separator after it;
# 100 where it has no terminator at its end, and ends by a separator or where the text ends.
#
# SB1 and SB2 (a boundary at the start and at the end of the text) need no rule.

!!chain;
!!quoted_literals_only;

$CR        = \p{SB=CR};
$LF        = \p{SB=LF};
$Sep       = \p{SB=Sep};
$Sp        = \p{SB=Sp};
$Lower     = \p{SB=Lower};
$Upper     = \p{SB=Upper};
$OLetter   = \p{SB=OLetter};
$Numeric   = \p{SB=Numeric};
$ATerm     = \p{SB=ATerm};
$STerm     = \p{SB=STerm};
$SContinue = \p{SB=SContinue};
$Close     = \p{SB=Close};
$ParaSep   = [$Sep $CR $LF];
$SATerm    = [$STerm $ATerm];

# A paragraph separator, as a whole.
$Separator = $CR $LF | $ParaSep;                                # SB3

# What SB5 skips: any number of these after a character count as a part of it.
$Ignored = [\p{SB=Extend} \p{SB=Format}];
$X       = $Ignored*;

# What may stand after a terminator before the sentence ends.
$Tail = $X ($Close $X)* ($Sp $X)*;

# What neither ends a sentence nor may end one.
$Body = [^ $ParaSep $SATerm];

# A sentence begins with any of it, up to a terminator or a separator. After a terminator the
# sentence goes on only at one of the characters by which SB6 to SB8a join; so the rules that may be
# chained into begin with one of these, and never with what may be a tail.
$Resume = [$Numeric $Upper $Lower $SContinue];

^$Body+ {100};                                                  # SB998
^$Body* $Separator {100};                                       # SB998, SB3, SB4
^$Body* $SATerm;                                                # SB998
$Resume $Body* {100};                                           # SB998
$Resume $Body* $Separator {100};                                # SB998, SB3, SB4
$Resume $Body* $SATerm;                                         # SB998

$ATerm $X $Numeric;                                             # SB6
[$Upper $Lower] $X $ATerm $X $Upper;                            # SB7
$ATerm [^ $OLetter $Upper $Lower $ParaSep $SATerm]* $Lower;     # SB8
$SATerm $Tail [$SContinue $SATerm];                             # SB8a

$SATerm $Tail;                                                  # SB5, SB9, SB10, SB11
$SATerm $Tail $Separator;                                       # SB3, SB4, SB9, SB10, SB11
"##;
