//! The text of rules/grapheme.rules, as `bin/make-tables` puts it here.

/// The text.
pub(crate) const GRAPHEME: &str =
    r##"# Extended grapheme clusters: the rules GB1 to GB999 of UAX #29, Unicode 18.0.
#
# For rbbi it wants these files of unicode/, or Unicode's own; segment has their properties built in:
#   --prop GCB=GraphemeBreakProperty.txt
#   --prop Emoji=emoji-data.txt
#   --prop InCB=DerivedCoreProperties.txt
#
# Status: 0 everywhere.
#
# GB1 and GB2 (a boundary at the start and at the end of the text) need no rule. Where no rule takes
# two characters together there is a boundary between them, so GB4 and GB5 (before and after a
# control) are kept by no rule that takes a control beside another character.

!!chain;
!!quoted_literals_only;

$CR          = \p{GCB=CR};
$LF          = \p{GCB=LF};
$Control     = \p{GCB=Control};
$Extend      = \p{GCB=Extend};
$ZWJ         = \p{GCB=ZWJ};
$SpacingMark = \p{GCB=SpacingMark};
$Prepend     = \p{GCB=Prepend};
$RI          = \p{GCB=Regional_Indicator};
$L           = \p{GCB=L};
$V           = \p{GCB=V};
$T           = \p{GCB=T};
$LV          = \p{GCB=LV};
$LVT         = \p{GCB=LVT};
$Pictograph  = \p{Emoji=Extended_Pictographic};
$Linker      = \p{InCB=Linker};
$Consonant   = \p{InCB=Consonant};

$Plain       = [^ $Control $CR $LF];

$CR $LF;                                # GB3

$L [$L $V $LV $LVT];                    # GB6
[$LV $V] [$V $T];                       # GB7
[$LVT $T] $T;                           # GB8

$Plain [$Extend $ZWJ];                  # GB9
$Plain $SpacingMark;                    # GB9a
$Prepend $Plain;                        # GB9b

$Linker \p{InCB=Extend}* $Consonant;     # GB9c

$Pictograph $Extend* $ZWJ $Pictograph;  # GB11

# A pair of regional indicators is never chained into, so that a third one begins a new cluster. In
# front of a pair stand, in one cluster, only characters that GB9b joins to it.
^$Prepend* $RI $RI;                     # GB12, GB13

.;                                      # GB999
"##;
