//! The style of a picture: its fonts, its lines, and its colours in light and in dark.

/// Fonts and lines.
pub const FORMS: &str =
    "text{font:11px ui-monospace,SFMono-Regular,Menlo,Consolas,'DejaVu Sans Mono',monospace;white-space:pre}\
    .h,.st,.leg,.fe{font-family:system-ui,-apple-system,'Segoe UI',Helvetica,Arial,'DejaVu Sans',sans-serif}\
    .h{font-size:17px;font-weight:600}.st{font-size:12px}.leg{font-size:11px}.cl{font-size:12px;font-weight:600}\
    .fe{font-size:11.5px;font-weight:600}.a{font-size:9.5px}.v{font-size:10.5px;font-weight:600;text-anchor:middle}\
    .m{text-anchor:middle}.r{text-anchor:end}.b{font-weight:600}path,.o{fill:none}.w1{stroke-width:1}.w15{stroke-width:1.5}\
    .w2{stroke-width:2}.rd{stroke-width:1;stroke-opacity:.8}.lf{stroke-width:2.5}.dot{stroke-dasharray:2 3}\
    .dash{stroke-dasharray:5 3}.post{stroke-dasharray:1.5 6.5;stroke-width:8}\
    .halo{paint-order:stroke;stroke-width:3;stroke-linejoin:round}";

/// The colours on a light ground.
pub const LIGHT: &str =
    ".bg,.bs,.on{fill:#ffffff}text{fill:#1f2328}.mu{fill:#59636e}.no{fill:#b3141f}.on{fill:#ffffff}\
    .hl{stroke:#c8d1da}.ax{stroke:#59636e}.ik{stroke:#1f2328}.ns{stroke:#b3141f}.bar{fill:#a9b4bf}.bd{fill:#f3f5f7}\
    .hf{fill:#c8d1da}.if{fill:#1f2328}.halo{stroke:#ffffff}.f0{fill:#6a737d}.s0{stroke:#6a737d}.f1{fill:#0969da}\
    .s1{stroke:#0969da}.f2{fill:#946200}.s2{stroke:#946200}.f3{fill:#c2188f}.s3{stroke:#c2188f}\
    .t0{fill:#6a737d;fill-opacity:.11}.t1{fill:#0969da;fill-opacity:.11}.t2{fill:#946200;fill-opacity:.11}\
    .t3{fill:#c2188f;fill-opacity:.11}";

/// The colours on a dark ground.
pub const DARK: &str =
    ".bg,.bs,.on{fill:#0d1117}text{fill:#e6edf3}.mu{fill:#9198a1}.no{fill:#ff7b72}.on{fill:#0d1117}\
    .hl{stroke:#3d444d}.ax{stroke:#9198a1}.ik{stroke:#e6edf3}.ns{stroke:#ff7b72}.bar{fill:#57616c}.bd{fill:#151b23}\
    .hf{fill:#3d444d}.if{fill:#e6edf3}.halo{stroke:#0d1117}.f0{fill:#9198a1}.s0{stroke:#9198a1}.f1{fill:#58a6ff}\
    .s1{stroke:#58a6ff}.f2{fill:#e3b341}.s2{stroke:#e3b341}.f3{fill:#ff96dc}.s3{stroke:#ff96dc}\
    .t0{fill:#9198a1;fill-opacity:.17}.t1{fill:#58a6ff;fill-opacity:.17}.t2{fill:#e3b341;fill-opacity:.17}\
    .t3{fill:#ff96dc;fill-opacity:.17}";

/// The hatching of a holder's column that is shut out, for each colour.
pub const HATCHING: &str =
    "<pattern id='x0' width='6' height='6' patternUnits='userSpaceOnUse' patternTransform='rotate(45)'>\
    <path class='s0' stroke-opacity='.45' d='M0 0V6'/></pattern>\
    <pattern id='x1' width='6' height='6' patternUnits='userSpaceOnUse' patternTransform='rotate(45)'>\
    <path class='s1' stroke-opacity='.45' d='M0 0V6'/></pattern>\
    <pattern id='x2' width='6' height='6' patternUnits='userSpaceOnUse' patternTransform='rotate(45)'>\
    <path class='s2' stroke-opacity='.45' d='M0 0V6'/></pattern>\
    <pattern id='x3' width='6' height='6' patternUnits='userSpaceOnUse' patternTransform='rotate(45)'>\
    <path class='s3' stroke-opacity='.45' d='M0 0V6'/></pattern>";
