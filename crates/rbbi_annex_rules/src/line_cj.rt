//! The text of rules/line-cj.rules, as `bin/make-tables` puts it here.

/// The text.
pub(crate) const LINE_CJ: &str =
    r##"# line-cj: line.rules, tailored by tailored.py as CSS Text 3 (section 5.3) and ICU tailor lines.
# The quotes U+201C and U+201D are opening and closing punctuation.
#
# Line breaks: the rules LB1 to LB31 of UAX #14, as they stand in Unicode 17.0, over data of 18.0. What
# 18.0 changed in these rules, if it did, isn't in this file. They name each class that its data have.
#
# For rbbi it wants these files of unicode/, or Unicode's own; segment has their properties built in:
#   --prop LB=LineBreak.txt
#   --prop EA=EastAsianWidth.txt
#   --prop GC=DerivedGeneralCategory.txt
#   --prop Emoji=emoji-data.txt
#
# Status: 100 where the line must be broken, 0 where it may be. The end of a text that ends by no
# line end has the status 0.
#
# LB2 and LB3 (none at the start, one at the end of the text) need no rule.

!!chain;
!!quoted_literals_only;

# The classes, by LB1. AL comes last, since it is all that is in no other class: AI, XX and SA count
# as AL, but for the marks of SA, and so does a code point that LineBreak.txt doesn't list.

$Marks = [\p{GC=Mn} \p{GC=Mc}];

$AK  = \p{LB=AK};
$AP  = \p{LB=AP};
$AS  = \p{LB=AS};
$B2  = \p{LB=B2};
$BA  = \p{LB=BA};
$BB  = \p{LB=BB};
$BK  = \p{LB=BK};
$CB  = \p{LB=CB};
$CL  = [\p{LB=CL} \u201D];
$CM  = [\p{LB=CM} [[\p{LB=SA}] & $Marks]];
$CP  = \p{LB=CP};
$CR  = \p{LB=CR};
$EB  = \p{LB=EB};
$EM  = \p{LB=EM};
$EX  = \p{LB=EX};
$GL  = \p{LB=GL};
$H2  = \p{LB=H2};
$H3  = \p{LB=H3};
$HH  = \p{LB=HH};
$HL  = \p{LB=HL};
$HY  = \p{LB=HY};
$ID  = \p{LB=ID};
$IN  = \p{LB=IN};
$IS  = \p{LB=IS};
$JL  = \p{LB=JL};
$JT  = \p{LB=JT};
$JV  = \p{LB=JV};
$LF  = \p{LB=LF};
$NL  = \p{LB=NL};
$NS  = [\p{LB=NS} \p{LB=CJ}];
$NU  = \p{LB=NU};
$OP  = [\p{LB=OP} \u201C];
$PO  = \p{LB=PO};
$PR  = \p{LB=PR};
$QU  = [\p{LB=QU} - [\u201C \u201D]];
$RI  = \p{LB=RI};
$SP  = \p{LB=SP};
$SY  = \p{LB=SY};
$VF  = \p{LB=VF};
$VI  = \p{LB=VI};
$WJ  = \p{LB=WJ};
$ZW  = \p{LB=ZW};
$ZWJ = \p{LB=ZWJ};
$AL  = [^ $AK $AP $AS $B2 $BA $BB $BK $CB $CL $CM $CP $CR $EB $EM $EX $GL $H2 $H3 $HH $HL $HY
          $ID $IN $IS $JL $JT $JV $LF $NL $NS $NU $OP $PO $PR $QU $RI $SP $SY $VF $VI $WJ $ZW $ZWJ];

# Quotes that begin and that end what they stand round, and all others.
$Pi     = [$QU & \p{GC=Pi}];
$Pf     = [$QU & \p{GC=Pf}];
$Quote  = [$QU - $Pi - $Pf];

# Brackets that aren't of East Asian width, for LB30.
$EastAsian = [\p{EA=F} \p{EA=W} \p{EA=H}];
$OP30      = [$OP - $EastAsian];
$CP30      = [$CP - $EastAsian];

# What may still become a base of an emoji, for LB30b.
$UnassignedPictograph = [\p{Emoji=Extended_Pictographic} & \p{GC=Cn}];

# The letters of Brahmic scripts, and U+25CC in place of one, for LB28a.
$Circle = [\u25CC];
$Aksara = [$AK $AS $Circle];

# Line ends, and what isn't one.
$Hard = [$BK $CR $LF $NL];
$Soft = [^ $Hard];

# What LB9 skips: any number of marks after a base count as a part of it.
$Mark = [$CM $ZWJ];
$X    = $Mark*;
$Base = [^ $Hard $SP $ZW $Mark];

# A base that LB20 doesn't part from the others, and one that isn't of East Asian width.
$Joining = [$Base - $CB];
$Other   = [$Base - $EastAsian];

# What LB11, LB13, LB15b and LB15d join to what stands before it, spaces between them or not. Where
# spaces stand between, LB15b and LB15c ask what follows, see "Cuts".
$Late = [$WJ $CL $CP $EX $SY $IS $Pf];

# What holds on to what follows, over spaces: by LB14 an OP, and by LB15a a quote that begins. It does
# so after an OP, a quote, GL, a space or ZW, and where the text or a line begins. In front of spaces
# LB19a parts it from nothing, so where a segment begins with it one of these stands before.
$Quotes = $Pi $X ($SP* $Pi $X)*;
$Opener = ($OP $X ($SP* $Quotes)? | [$QU $GL] $X $Quotes);

# Marks with no base count as U+0041 by LB10, an AL that is narrow. They stand where a segment begins
# and after spaces that follow an opener. So each rule that allows AL as its first class is here too.
$AfterMarks = ($SP* $Late                               # LB11, LB13, LB15b, LB15d
    | [$GL $QU $BA $HH $HY $NS $IN $NU $PR $PO $AL $HL $OP30]   # LB12a to LB30
    | $Pf $X $Base);                                    # LB19a

# Regional indicators are counted from where their run begins, in pairs. A pair isn't chained into a
# pair; it goes on by LB8a alone, where a ZWJ stands after it. A run begins with a segment, or where
# a rule joins a regional indicator to something else.
$Pairs = $RI $X $RI ($X $ZWJ $RI $X $RI)*;

# What may stand after an opener.
$Opened = ($SP* $Base                                   # LB14, LB15a
    | $SP+ $Mark+ $AfterMarks?                          # LB10
    | $SP+ $Pf $X $Base                                 # LB19a
    | $SP+ [$HY $HH] $X [$AL $HL]                       # LB20a
    | $SP* $Pairs                                       # LB30a
    | $SP+ $X $ZWJ $Pairs);                             # LB30a after LB8a

# Line ends.

$Hard {100};                                            # LB4, LB5
$CR $LF {100};                                          # LB5
$Soft $Hard {100};                                      # LB6

# Spaces and zero width. Where no rule takes two characters together the line may be broken, so LB8
# (after ZW and its spaces), LB18 (after spaces) and LB20 (round CB) are kept by no rule that joins
# there. At a space only the rules of LB6 and LB7 are chained into; a rule that reads over spaces
# begins in front of them.

$Soft [$SP $ZW];                                        # LB7
$ZWJ $Soft;                                             # LB8a

[$Base $Mark] $Mark;                                    # LB9
^$Mark+ $AfterMarks;                                    # LB10

$Base $X $SP* $Late;                                    # LB11, LB13, LB15b, LB15d, LB19
^$SP+ $Late;                                            # LB11, LB13, LB15b, LB15d

[$WJ $GL] $X $Base;                                     # LB11, LB12
[$Base - $BA - $HH - $HY] $X $GL;                       # LB12a

$Opener $Opened;                                        # LB14, LB15a
^$Quotes $Opened;                                       # LB15a
[$CL $CP] $X $SP* $NS;                                  # LB16
$B2 $X $SP* $B2;                                        # LB17

$Base $X $QU;                                           # LB19, LB19a
[$Pi $Quote] $X $Base;                                  # LB19
$Pf $X $Other;                                          # LB19a
$Other $X $Pf $X $Base;                                 # LB19a
^$Pf $X $Base;                                          # LB19a

^[$HY $HH] $X [$AL $HL];                                # LB20a
$GL $X [$HY $HH] $X [$AL $HL];                          # LB20a
$CB $X $ZWJ [$HY $HH] $X [$AL $HL];                     # LB20a after LB8a
$Joining $X [$BA $HH $HY $NS];                          # LB21
$BB $X $Joining;                                        # LB21
$HL $X [$HY $HH] $X [$Joining - $HL];                   # LB21a
$SY $X $HL;                                             # LB21b
$Joining $X $IN;                                        # LB22

[$AL $HL] $X $NU;                                       # LB23
$NU $X [$AL $HL];                                       # LB23
$PR $X [$ID $EB $EM];                                   # LB23a
[$ID $EB $EM] $X $PO;                                   # LB23a
[$PR $PO] $X [$AL $HL];                                 # LB24
[$AL $HL] $X [$PR $PO];                                 # LB24

$NU $X ([$SY $IS] $X)* $NU;                             # LB25
$NU $X ([$SY $IS] $X)* ([$CL $CP] $X)? [$PR $PO];       # LB25
[$PR $PO] $X $OP $X ($IS $X)? $NU;                      # LB25
[$PR $PO $HY $IS] $X $NU;                               # LB25

$JL $X [$JL $JV $H2 $H3];                               # LB26
[$JV $H2] $X [$JV $JT];                                 # LB26
[$JT $H3] $X $JT;                                       # LB26
[$JL $JV $JT $H2 $H3] $X $PO;                           # LB27
$PR $X [$JL $JV $JT $H2 $H3];                           # LB27
[$AL $HL] $X [$AL $HL];                                 # LB28
$AP $X $Aksara;                                         # LB28a
$Aksara $X [$VF $VI];                                   # LB28a
$Aksara $X $VI $X [$AK $Circle];                        # LB28a
$Aksara $X $Aksara $X $VF;                              # LB28a
$IS $X [$AL $HL];                                       # LB29
[$AL $HL $NU] $X $OP30;                                 # LB30
$CP30 $X [$AL $HL $NU];                                 # LB30

^$Pairs;                                                # LB30a
[$WJ $GL $QU $BB] $X $Pairs;                            # LB30a after LB11, LB12, LB19, LB21
$HL $X [$HY $HH] $X $Pairs;                             # LB30a after LB21a
[$Base - $RI] $X $ZWJ $Pairs;                           # LB30a after LB8a
^$X $ZWJ $Pairs;                                        # LB30a after LB8a

[$EB $UnassignedPictograph] $X $EM;                     # LB30b

.;                                                      # LB31

# Cuts. Some rules ask what stands one further on. The rules above join there, and a look-ahead rule
# parts again where that doesn't fit. So at the text's end, where nothing follows, they join, as LB15b,
# LB15d and LB19a say.
#
# After spaces an IS is joined, but not in front of a NU, and a quote that ends only in front of these.
# That doesn't hold after an opener, since LB14 and LB15a come first.
$NotAfterPf = [^ $SP $GL $WJ $CL $QU $CP $EX $IS $SY $Hard $ZW $Mark];
$Parted     = ($IS $X $NU | $Pf $X $NotAfterPf);

([$Base - $OP - $Pi] $X | [$Base - $OP - $QU - $GL] $X $Pi $X | $Opener $SP+ $Mark+ ($Pi $X)?)
    $SP+ / $Parted;                                     # LB15b, LB15c
^(($Quotes $SP+)? $Mark+ ($Pi $X)?)? $SP+ / $Parted;    # LB15b, LB15c

# A quote that begins is joined to what stands before it, but not where what stands on both sides is of
# East Asian width and no other rule joins it. After a ZWJ LB8a joins it.
[[$Base & $EastAsian] - $OP - $WJ - $GL - $QU - $BB - $HY - $HH] ($X $CM)? /
    $Pi $X [$Base & $EastAsian];                        # LB19a
"##;
