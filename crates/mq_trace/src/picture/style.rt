//! The style sheet of a picture.

/// The colours of a picture in light and dark. Messages have the eight colours of Okabe and Ito,
/// which people with colour vision deficiency can distinguish too, with grey for black.
pub(crate) const STYLE: &str = "<style>\n\
text{font:10px sans-serif;fill:#1f2328}\n\
.h{font-size:17px;font-weight:bold}.n,.t{fill:#59636e;font-size:11px}.t{text-anchor:middle}\n\
.i{font-size:12px;font-weight:bold}.e{text-anchor:end}\n\
.p{fill:#fff}.l{fill:#f3f5f7}.g{stroke:#d8dee4}.r{stroke:#59636e}\n\
.q,.s{fill:none;stroke:#1f2328;stroke-width:1.2}.s{stroke:#0067a3;stroke-dasharray:4 2}\n\
.v,.u{stroke:#1f2328;stroke-width:1.5}.u{stroke-dasharray:1 2}.x{fill:#a8240f}\n\
.c0{fill:#999}.c1{fill:#56b4e9}.c2{fill:#e69f00}.c3{fill:#009e73}.c4{fill:#cc79a7}\n\
.c5{fill:#0072b2}.c6{fill:#d55e00}.c7{fill:#f0e442}.c8{fill:#59636e}\n\
@media(prefers-color-scheme:dark){text{fill:#e6edf3}.n,.t{fill:#9aa4af}.p{fill:#0f1318}\n\
.l{fill:#181e25}.g{stroke:#2a313a}.r{stroke:#9aa4af}.q,.v,.u{stroke:#e6edf3}.s{stroke:#6cb6ff}\n\
.x{fill:#ff8f73}.c8{fill:#9aa4af}}\n\
.b0,.b1,.b2,.b3,.b4,.b6,.b7{fill:#000}.b5{fill:#fff}\n\
</style>\n";
