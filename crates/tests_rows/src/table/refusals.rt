//! Sources that are refused. Written by `tools/transcripts/write_tests.py`.

/// Rows as `crate::row` reads them.
pub(crate) const ROWS: &str = "\
RefusedNames@@export void go() { x = 1; }@@step
@1:20: S5 UnknownName
$
RefusedNames@@export void go() { int x = 1 + q(y); }@@step
@1:34: S5 UnknownName
$
RefusedNames@@export void go() { int x = q[r]; }@@step
@1:30: S5 UnknownName
$
RefusedNames@@export void go() { int x; int x; }@@step
@1:31: S6 Duplicate
$
RefusedNames@@int a;
uniform int a[2];
export void go() { }@@step
@2:13: S6 Duplicate
$
RefusedNames@@void f() { }
void f() { }
export void go() { }@@step
@2:6: S6 Duplicate
$
RefusedNames@@export void go() { foreach_active (programCount) ; }@@step
@1:36: S6 Duplicate
$
RefusedNames@@export void go() { foreach_unique (programIndex in 2) ; }@@step
@1:36: S6 Duplicate
$
RefusedNames@@export void go() { switch (1) { case 1: case 1: ; } }@@step
@1:41: S6 Duplicate
$
RefusedNames@@export void go() { foreach (i = 0 ... 4) return; }@@step
@1:42: S11 BadControl
$
RefusedNames@@export void go() { foreach (i = 0 ... 4) foreach_active (j) foreach (k = 0 ... 4) ; }@@step
@1:61: S11 BadControl
$
RefusedNames@@export void go() { break; }@@step
@1:20: S11 BadControl
$
RefusedNames@@export void go() { switch (1) { case 1: continue; } }@@step
@1:41: S11 BadControl
$
RefusedNames@@int f() { return 1; }
export void go() { int x = f() + 1; }@@step
@2:28: S12 NestedCall
$
RefusedNames@@uniform int q[2];
int f() { return 1; }
export void go() { q[0] = f(); }@@step
@3:27: S12 NestedCall
$
RefusedNames@@int f() { return 1; }
export void go() { for (; f(); ) ; }@@step
@2:27: S12 NestedCall
$
RefusedTypes@@export void go() { uniform int u = programIndex; }@@step
@1:36: S7 Rate
$
RefusedTypes@@export void go() { uniform int u = (programIndex); }@@step
@1:36: S7 Rate
$
RefusedTypes@@export void go() { int x = broadcast(1, programIndex); }@@step
@1:41: S7 Rate
$
RefusedTypes@@int a[3];
export void go() { }@@step
@1:5: S7 Rate
$
RefusedTypes@@export void go(int n) { }@@step
@1:20: S7 Rate
$
RefusedTypes@@export int go() { }@@step
@1:12: S7 Rate
$
RefusedTypes@@export void go() { const int x = 1; x = 2; }@@step
@1:37: S8 Type
$
RefusedTypes@@export void go() { int8 v = 1; switch (v) { case 300: ; } }@@step
@1:45: S8 Type
$
RefusedTypes@@uniform int a[2];
void f(uniform int b[]) { }
export void go() { f(&a[true]); }@@step
@3:25: S8 Type
$
RefusedTypes@@uniform int a[2];
void f(uniform int b[]) { }
export void go() { f(&a[programIndex > 1]); }@@step
@3:25: S7 Rate
$
RefusedTypes@@export void go() { int x = min(1); }@@step
@1:28: S9 NoOverload
$
RefusedTypes@@void f(int8 a, int16 b) { }
void f(int16 a, int8 b) { }
export void go() { f(1, 1); }@@step
@3:20: S10 Ambiguous
$
RefusedTypes@@void f(int64 a, int8 b) { }
void f(int8 a, int b) { }
export void go() { f(1, 1); }@@step
@3:20: S10 Ambiguous
$
RefusedLimits@@uniform int a[1048577]; export void go() { }@@step
@1:13: S13 Limit
$
RefusedLimits@@export void go() {
int v1;
int v2;
int v3;
int v4;
int v5;
int v6;
int v7;
int v8;
int v9;
int v10;
int v11;
int v12;
int v13;
int v14;
int v15;
int v16;
int v17;
int v18;
int v19;
int v20;
int v21;
int v22;
int v23;
int v24;
int v25;
int v26;
int v27;
int v28;
int v29;
int v30;
int v31;
int v32;
int v33;
int v34;
int v35;
int v36;
int v37;
int v38;
int v39;
int v40;
int v41;
int v42;
int v43;
int v44;
int v45;
int v46;
int v47;
int v48;
int v49;
int v50;
int v51;
int v52;
int v53;
int v54;
int v55;
int v56;
int v57;
int v58;
int v59;
int v60;
int v61;
int v62;
int v63;
int v64;
int v65;
int v66;
int v67;
int v68;
int v69;
int v70;
int v71;
int v72;
int v73;
int v74;
int v75;
int v76;
int v77;
int v78;
int v79;
int v80;
int v81;
int v82;
int v83;
int v84;
int v85;
int v86;
int v87;
int v88;
int v89;
int v90;
int v91;
int v92;
int v93;
int v94;
int v95;
int v96;
int v97;
int v98;
int v99;
int v100;
int v101;
int v102;
int v103;
int v104;
int v105;
int v106;
int v107;
int v108;
int v109;
int v110;
int v111;
int v112;
int v113;
int v114;
int v115;
int v116;
int v117;
int v118;
int v119;
int v120;
int v121;
int v122;
int v123;
int v124;
int v125;
int v126;
int v127;
int v128;
int v129;
int v130;
int v131;
int v132;
int v133;
int v134;
int v135;
int v136;
int v137;
int v138;
int v139;
int v140;
int v141;
int v142;
int v143;
int v144;
int v145;
int v146;
int v147;
int v148;
int v149;
int v150;
int v151;
int v152;
int v153;
int v154;
int v155;
int v156;
int v157;
int v158;
int v159;
int v160;
int v161;
int v162;
int v163;
int v164;
int v165;
int v166;
int v167;
int v168;
int v169;
int v170;
int v171;
int v172;
int v173;
int v174;
int v175;
int v176;
int v177;
int v178;
int v179;
int v180;
int v181;
int v182;
int v183;
int v184;
int v185;
int v186;
int v187;
int v188;
int v189;
int v190;
int v191;
int v192;
int v193;
int v194;
int v195;
int v196;
int v197;
int v198;
int v199;
int v200;
int v201;
int v202;
int v203;
int v204;
int v205;
int v206;
int v207;
int v208;
int v209;
int v210;
int v211;
int v212;
int v213;
int v214;
int v215;
int v216;
int v217;
int v218;
int v219;
int v220;
int v221;
int v222;
int v223;
int v224;
int v225;
int v226;
int v227;
int v228;
int v229;
int v230;
int v231;
int v232;
int v233;
int v234;
int v235;
int v236;
int v237;
int v238;
int v239;
int v240;
int v241;
int v242;
int v243;
int v244;
int v245;
int v246;
int v247;
int v248;
int v249;
int v250;
int v251;
int v252;
int v253;
int v254;
int v255;
int v256;
int v257;
}@@step
@258:5: S13 Limit
$
RefusedLimits@@void f() { }@@step
@entry: E1 NoEntry
$
";
