//! The style of the page: colours for a light and a dark screen, and how cells are drawn.
ghost use Rattle.std.specs.Prelude.{◌≡◌, ◌++◌, OnOk};
ghost use Rattle.bs_inspect_html.specs.Style.{marks_style, style_text};

use bs_bits::{NoMemory, push_piece};

/// The rules. A cell of class `h` is a bit that is 1, `l` one that is 0, `v` a vector; `u` one at which other candidates differ.
const STYLE: &str = "<style>\n\
    :root{color-scheme:light dark;--ink:#1c2430;--dim:#56606e;--line:#d9dee6;--paper:#fff;--soft:#f4f6f9;--wave:#1f5fae;--fill:#e6effa;--hit:#9a4a00;--dump:#b3202c;--last:#fdecee;--open:#c2410c73}\n\
    @media (prefers-color-scheme:dark){:root{--ink:#e2e6ec;--dim:#a3acb9;--line:#39414d;--paper:#14181e;--soft:#1d232b;--wave:#74aef5;--fill:#21344d;--hit:#f0a860;--dump:#ff8a92;--last:#3a2024;--open:#ff9a5799}}\n\
    *{box-sizing:border-box}\n\
    body{margin:0 auto;padding:20px;max-width:1600px;color:var(--ink);background:var(--paper);font:14px/1.45 system-ui,DejaVu Sans,sans-serif}\n\
    h1{font-size:22px;margin:0}\n\
    h2{font-size:16px;margin:24px 0 6px}\n\
    p{max-width:860px;margin:6px 0}\n\
    ul{padding:0;margin:6px 0;max-width:860px}\n\
    li{list-style:none;overflow-wrap:anywhere}\n\
    .d{color:var(--dim)}\n\
    pre,td,.s,.w th{font-family:ui-monospace,DejaVu Sans Mono,monospace;font-size:12px}\n\
    pre{background:var(--soft);border:1px solid var(--line);padding:8px 10px;margin:6px 0;white-space:pre-wrap;overflow-wrap:anywhere}\n\
    div{border:1px solid var(--line);overflow:auto;max-height:85vh;max-width:100%;width:fit-content}\n\
    div:focus-visible{outline:2px solid var(--wave)}\n\
    .late{direction:rtl}\n\
    .late table{direction:ltr}\n\
    table{border-collapse:separate;border-spacing:0}\n\
    th{font-weight:400;text-align:left}\n\
    thead th{color:var(--dim);background:var(--soft);position:sticky;top:0;z-index:2}\n\
    .t th,.t td{padding:3px 12px;border-bottom:1px solid var(--line);white-space:nowrap;text-align:right}\n\
    .n tr>:first-child{left:0;text-align:left;white-space:normal;overflow-wrap:anywhere;min-width:min(220px,30vw)}.n tbody th{position:sticky;z-index:1;background:var(--paper);font-family:ui-monospace,DejaVu Sans Mono,monospace;font-size:12px}.n thead>tr>:first-child{z-index:3}\n\
    .w{table-layout:fixed;width:1px;background:linear-gradient(270deg,var(--last) 88px,#0000 0)}\n\
    .w th{width:88px;padding:1px 2px}\n\
    .w tr>:first-child{width:300px;padding:2px 10px;text-align:left;overflow-wrap:anywhere;position:sticky;left:0;z-index:1;background:var(--paper);border-right:1px solid var(--line)}\n\
    .w thead th{text-align:center;vertical-align:top;border-bottom:1px solid var(--line)}\n\
    .w thead>tr>:first-child{z-index:3;background:var(--soft)}\n\
    .w span{display:block;white-space:nowrap}\n\
    .w .r{color:var(--hit)}\n\
    .w .x{color:var(--dump);font-weight:600}\n\
    .w tr>.g{color:var(--dim);padding-top:10px}\n\
    .w td{height:22px;padding:3px 0;vertical-align:top;overflow:clip;white-space:nowrap;--e:linear-gradient(#0000,#0000);--o:linear-gradient(#0000,#0000);background:var(--e),var(--o),repeating-linear-gradient(90deg,var(--line) 0 1px,#0000 0 88px),var(--b);background-origin:content-box;background-clip:content-box;background-size:auto 16px;background-repeat:repeat-x}\n\
    .w .h{--b:linear-gradient(var(--wave) 1.5px,var(--fill) 0)}\n\
    .w .l{--b:linear-gradient(#0000 calc(100% - 1.5px),var(--wave) 0)}\n\
    .w .v{--b:linear-gradient(var(--wave) 1.5px,var(--fill) 0 calc(100% - 1.5px),var(--wave) 0)}\n\
    .w .v,.w .h+.l,.w .l+.h{--e:linear-gradient(90deg,var(--wave) 1.5px,#0000 0)}\n\
    .w .u{--o:repeating-linear-gradient(135deg,var(--open) 0 1.5px,#0000 0 6px)}\n\
    .w b{font-weight:400;display:inline-block;position:sticky;left:305px;padding:0 5px;max-width:100%;overflow:clip;text-overflow:ellipsis;line-height:13px;margin-top:1.5px;vertical-align:top}\n\
    .w .h b,.w .l b{opacity:0}\n\
    .w .v.u b{text-shadow:0 0 2px var(--fill),0 0 2px var(--fill),0 0 3px var(--fill),0 0 3px var(--fill)}\n\
    .w tr>:first-child span{white-space:normal}\n\
    @media (max-width:800px){body{padding:10px}.w tr>:first-child{width:130px;padding:2px 6px}.w b{left:135px}}\n\
    @media print{body{max-width:none}div{max-height:none;overflow:visible}}\n\
    </style>\n";

/// Appends the style.
pub(crate) fn push_style(text: &mut Vec<u8>) -> Result<(), NoMemory>
    ensures { OnOk result (text.new.items ≡ text.old.items ++ style_text) }
{
    push_piece(text, STYLE.as_bytes())
}

/// Appends the style with that of marks.
pub(crate) fn push_marks_style(text: &mut Vec<u8>) -> Result<(), NoMemory>
    ensures { OnOk result (text.new.items ≡ text.old.items ++ marks_style) }
{
    push_style(text)?;
    push_piece(
        text,
        b"<style>\nth.m{box-shadow:inset 3px 0 var(--wave)}\nth.m span{display:inline;color:var(--dim)}\n</style>\n",
    )
}
