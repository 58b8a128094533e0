//! Texts that nothing spells, counted steps, a history limit that changes, and reports. Written by `tools/transcripts/write_tests.py`.

/// Rows as `crate::row` reads them.
pub(crate) const ROWS: &str = "\
RefusedTexts@@export void go() { int x = 0x@@step
@1:28: S2 BadNumber
$
RefusedTexts@@export void go() { int x@@step
@1:25: S3 Unexpected
$
RefusedTexts@@export void go() { int x = 1.5; }@@step
@1:29: S1 BadByte
$
RefusedTexts@@export void go() { int x = ((((((((((((((((((((((((((((((((((((((((((((((((((((((((((((((((@@step
@1:91: S4 TooDeep
$
RefusedTexts@@1....2@@step
@1:5: S1 BadByte
$
RefusedTexts@@08@@step
@1:1: S2 BadNumber
$
RefusedTexts@@1uu@@step
@1:1: S2 BadNumber
$
RefusedTexts@@0b12@@step
@1:1: S2 BadNumber
$
RefusedTexts@@18446744073709551616@@step
@1:1: S2 BadNumber
$
RefusedTexts@@/* x@@step
@1:1: S1 BadByte
$
RefusedTexts@@export void go() { switch (1) { x = 1; } }@@step
@1:33: S3 Unexpected
$
RefusedTexts@@export void go() { int x = 1 + 1 + 1 + 1 + 1 + 1 + 1 + 1 + 1 + 1 + 1 + 1 + 1 + 1 + 1 + 1 + 1 + 1 + 1 + 1 + 1 + 1 + 1 + 1 + 1 + 1 + 1 + 1 + 1 + 1 + 1 + 1 + 1 + 1 + 1 + 1 + 1 + 1 + 1 + 1 + 1 + 1 + 1 + 1 + 1 + 1 + 1 + 1 + 1 + 1 + 1 + 1 + 1 + 1 + 1 + 1 + 1 + 1 + 1 + 1 + 1 + 1 + 1 + 1 + 1 + 1 + 1 + 1 + 1 + 1 + 1 + 1 + 1 + 1 + 1 + 1 + 1 + 1 + 1 + 1 + 1 + 1 + 1 + 1 + 1 + 1 + 1 + 1 + 1 + 1 + 1 + 1 + 1 + 1 + 1 + 1 + 1 + 1 + 1 + 1 + 1 + 1 + 1 + 1 + 1 + 1 + 1 + 1 + 1 + 1 + 1 + 1 + 1 + 1 + 1 + 1 + 1 + 1 + 1 + 1 + 1 + 1 + 1 + 1 + 1 + 1 + 1 + 1 + 1 + 1 + 1 + 1 + 1 + 1 + 1 + 1 + 1 + 1 + 1 + 1 + 1 + 1 + 1 + 1 + 1 + 1 + 1 + 1 + 1 + 1 + 1 + 1 + 1 + 1 + 1 + 1 + 1 + 1 + 1 + 1 + 1 + 1 + 1 + 1 + 1 + 1 + 1 + 1 + 1 + 1 + 1 + 1 + 1 + 1 + 1 + 1 + 1 + 1 + 1 + 1 + 1 + 1 + 1 + 1 + 1 + 1 + 1 + 1 + 1 + 1 + 1 + 1 + 1 + 1 + 1 + 1 + 1 + 1 + 1 + 1 + 1 + 1 + 1 + 1 + 1 + 1 + 1 + 1 + 1 + 1 + 1 + 1 + 1 + 1 + 1 + 1 + 1 + 1 + 1 + 1 + 1 + 1 + 1 + 1 + 1 + 1 + 1 + 1 + 1 + 1 + 1 + 1 + 1 + 1 + 1 + 1 + 1 + 1 + 1 + 1 + 1 + 1 + 1 + 1 + 1 + 1 + 1 + 1 + 1 + 1 + 1 + 1 + 1 + 1 + 1 + 1 + 1 + 1; }@@step
@1:1054: S13 Limit
$
RefusedTexts@@@@step
@entry: E1 NoEntry
$
MostVariables@@export void go() {
int v1;
int v2;
int v3;
int v4;
int v5;
int v6;
int v7;
int v8;
int v9;
int v10;
int v11;
int v12;
int v13;
int v14;
int v15;
int v16;
int v17;
int v18;
int v19;
int v20;
int v21;
int v22;
int v23;
int v24;
int v25;
int v26;
int v27;
int v28;
int v29;
int v30;
int v31;
int v32;
int v33;
int v34;
int v35;
int v36;
int v37;
int v38;
int v39;
int v40;
int v41;
int v42;
int v43;
int v44;
int v45;
int v46;
int v47;
int v48;
int v49;
int v50;
int v51;
int v52;
int v53;
int v54;
int v55;
int v56;
int v57;
int v58;
int v59;
int v60;
int v61;
int v62;
int v63;
int v64;
int v65;
int v66;
int v67;
int v68;
int v69;
int v70;
int v71;
int v72;
int v73;
int v74;
int v75;
int v76;
int v77;
int v78;
int v79;
int v80;
int v81;
int v82;
int v83;
int v84;
int v85;
int v86;
int v87;
int v88;
int v89;
int v90;
int v91;
int v92;
int v93;
int v94;
int v95;
int v96;
int v97;
int v98;
int v99;
int v100;
int v101;
int v102;
int v103;
int v104;
int v105;
int v106;
int v107;
int v108;
int v109;
int v110;
int v111;
int v112;
int v113;
int v114;
int v115;
int v116;
int v117;
int v118;
int v119;
int v120;
int v121;
int v122;
int v123;
int v124;
int v125;
int v126;
int v127;
int v128;
int v129;
int v130;
int v131;
int v132;
int v133;
int v134;
int v135;
int v136;
int v137;
int v138;
int v139;
int v140;
int v141;
int v142;
int v143;
int v144;
int v145;
int v146;
int v147;
int v148;
int v149;
int v150;
int v151;
int v152;
int v153;
int v154;
int v155;
int v156;
int v157;
int v158;
int v159;
int v160;
int v161;
int v162;
int v163;
int v164;
int v165;
int v166;
int v167;
int v168;
int v169;
int v170;
int v171;
int v172;
int v173;
int v174;
int v175;
int v176;
int v177;
int v178;
int v179;
int v180;
int v181;
int v182;
int v183;
int v184;
int v185;
int v186;
int v187;
int v188;
int v189;
int v190;
int v191;
int v192;
int v193;
int v194;
int v195;
int v196;
int v197;
int v198;
int v199;
int v200;
int v201;
int v202;
int v203;
int v204;
int v205;
int v206;
int v207;
int v208;
int v209;
int v210;
int v211;
int v212;
int v213;
int v214;
int v215;
int v216;
int v217;
int v218;
int v219;
int v220;
int v221;
int v222;
int v223;
int v224;
int v225;
int v226;
int v227;
int v228;
int v229;
int v230;
int v231;
int v232;
int v233;
int v234;
int v235;
int v236;
int v237;
int v238;
int v239;
int v240;
int v241;
int v242;
int v243;
int v244;
int v245;
int v246;
int v247;
int v248;
int v249;
int v250;
int v251;
int v252;
int v253;
int v254;
int v255;
int v256;
}@@step 256
print v256
@at 258:1 go depth 1 lanes 1111
v256 = 0 0 0 0
$
RefusedInputs@@export void go(uniform int n, uniform int a[]) {
foreach (i = 0 ... n) a[i] += n;
}@@step
@input: I2 Missing n
$
RefusedInputs@@export void go(uniform int n, uniform int a[]) {
foreach (i = 0 ... n) a[i] += n;
}@n = x@step
@input 1: I1 BadLine
$
RefusedInputs@@export void go(uniform int n, uniform int a[]) {
foreach (i = 0 ... n) a[i] += n;
}@n = 3000000000@step
@input 1: I3 Range
$
RefusedInputs@@uniform int8 t[3];
export void go(uniform int n, uniform int a[]) {
a[programIndex] += n;
t[n] = n;
int g = a[n];
}@n = 1
n = 1@step
@input 2: I1 BadLine
$
RefusedInputs@@uniform int8 t[3];
export void go(uniform int n, uniform int a[]) {
a[programIndex] += n;
t[n] = n;
int g = a[n];
}@t = 1 2 3 200@step
@input 1: I4 TooLarge
$
CountedSteps@@void r() { r(); }
export void go() { r(); }@@step 64
@fault F5 CallDepth lane 0: at 1:12 r depth 64 lanes 1111
$
CountedSteps@--width 8@uniform int a[4];
export void go() {
int v = programIndex + 1;
int w = rotate(v, -1);
int s = -1;
int t = -1;
uniform int n = 0;
if (programIndex == 1 || programIndex == 3) {
s = exclusive_scan_add(v);
t = rotate(v, 2);
n = packed_store_active(&a[1], v);
}
}@@step 8
@at 11:1 go depth 1 lanes 01010000
$
ChangedHistory@--history 4@uniform int t = 0;
export void go() {
t += 1;
t += 1;
t += 1;
t += 1;
t += 1;
t += 1;
}@@step 6
set record full insn-number-max 2
reverse-step 3
print t
set record full insn-number-max 6
step 2
reverse-step 2
reverse-step
set record full insn-number-max 65537
set record full insn-number-max 0
@at 9:1 go depth 1 lanes 1111
history 2
history end: at 7:1 go depth 1 lanes 1111
t = 4
history 6
at 9:1 go depth 1 lanes 1111
at 7:1 go depth 1 lanes 1111
C3 NoHistory
C8 OutOfRange
C1 BadCommand
$
Reports@--lane-pure@int f(int k) {
int r = k + 1;
if (k > 1) return r;
return f(r);
}
export void go() {
int x = f(programIndex);
int y = f(2);
}@@@lane-pure 1:5 f: yes
lane-pure 6:13 go: yes
$
Reports@--lane-pure@uniform int a[4];
export void go() {
int v = programIndex + 1;
int w = rotate(v, -1);
int s = -1;
int t = -1;
uniform int n = 0;
if (programIndex == 1 || programIndex == 3) {
s = exclusive_scan_add(v);
t = rotate(v, 2);
n = packed_store_active(&a[1], v);
}
}@@@lane-pure 2:13 go: no
$
";
