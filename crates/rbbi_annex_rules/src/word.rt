//! The text of rules/word.rules, as `bin/make-tables` puts it here.

/// The text.
pub(crate) const WORD: &str =
    r##"# Words: the rules WB1 to WB999 of UAX #29, the same in Unicode 15.0 and 18.0.
#
# For rbbi it wants these files of unicode/, or Unicode's own; segment has their properties built in:
#   --prop WB=WordBreakProperty.txt
#   --prop Emoji=emoji-data.txt
#   --prop SC=Scripts.txt
#
# Status: the kind of the character that ends the segment, or 0 where it is of none of these kinds.
#   100 a digit    200 a letter    300 katakana or hiragana    400 an ideograph
# What WB4 skips, a connector (ExtendNumLet) and the quote of WB7a don't count as the end: what
# stands before them does.
#
# WB1 and WB2 (a boundary at the start and at the end of the text) need no rule. Where no rule takes
# two characters together there is a boundary between them, so WB3a and WB3b (before and after a line
# end) are kept by no rule that takes a line end beside another character.

!!chain;
!!quoted_literals_only;

$CR            = \p{WB=CR};
$LF            = \p{WB=LF};
$Newline       = \p{WB=Newline};
$WSegSpace     = \p{WB=WSegSpace};
$ZWJ           = \p{WB=ZWJ};
$RI            = \p{WB=Regional_Indicator};
$Katakana      = \p{WB=Katakana};
$Hebrew_Letter = \p{WB=Hebrew_Letter};
$AHLetter      = [\p{WB=ALetter} $Hebrew_Letter];
$Numeric       = \p{WB=Numeric};
$ExtendNumLet  = \p{WB=ExtendNumLet};
$Single_Quote  = \p{WB=Single_Quote};
$Double_Quote  = \p{WB=Double_Quote};
$MidLetter     = \p{WB=MidLetter};
$MidNum        = \p{WB=MidNum};
$MidNumLetQ    = [\p{WB=MidNumLet} $Single_Quote];
$Pictograph    = \p{Emoji=Extended_Pictographic};

# What WB4 skips: any number of these after a character count as a part of it.
$Ignored       = [\p{WB=Extend} \p{WB=Format} $ZWJ];
$X             = $Ignored*;

# For the statuses alone.
$Hiragana      = \p{SC=Hiragana};
$Ideograph     = [\p{SC=Han} - $AHLetter - $Ignored];

$CR $LF;                                              # WB3
$ZWJ $Pictograph;                                     # WB3c
$WSegSpace $WSegSpace;                                # WB3d
[^ $Newline $CR $LF] $Ignored;                        # WB4

$AHLetter $X $AHLetter;                               # WB5
$AHLetter $X [$MidLetter $MidNumLetQ] $X $AHLetter;   # WB6, WB7
$Hebrew_Letter $X $Single_Quote $X {200};             # WB7a, WB4
$Hebrew_Letter $X $Double_Quote $X $Hebrew_Letter;    # WB7b, WB7c

$Numeric $X $Numeric;                                 # WB8
$AHLetter $X $Numeric;                                # WB9
$Numeric $X $AHLetter;                                # WB10
$Numeric $X [$MidNum $MidNumLetQ] $X $Numeric;        # WB11, WB12

$Katakana $X $Katakana;                               # WB13
[$AHLetter $Numeric $Katakana $ExtendNumLet] $X
    $ExtendNumLet;                                    # WB13a
$ExtendNumLet $X [$AHLetter $Numeric $Katakana];      # WB13b

# A pair of regional indicators is never chained into, so that a third one begins a new segment.
^$RI $X $RI;                                          # WB15, WB16

# The statuses. These rules take what those above take too, and no more: a character with what WB4
# and WB13a join to it.
$Numeric   ($X $ExtendNumLet)* $X {100};              # WB4, WB13a
$AHLetter  ($X $ExtendNumLet)* $X {200};              # WB4, WB13a
$Katakana  ($X $ExtendNumLet)* $X {300};              # WB4, WB13a
$Hiragana  $X {300};                                  # WB4
$Ideograph $X {400};                                  # WB4

.;                                                    # WB999
"##;
