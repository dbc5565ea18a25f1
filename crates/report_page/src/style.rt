/// The page's style sheet: light and dark, any width, and print.
pub(crate) const STYLE: &[u8] = b":root {
  color-scheme: light dark; --ink: #1b1f24; --paper: #ffffff; --quiet: #4f5861; --line: #d0d7de;
  --allow: #4fa663; --deny: #a40e26; --answered: #b7791f; --unread: #7d8590; --moved: #8250df;
  --bar: #0969da }
@media (prefers-color-scheme: dark) {
  :root {
    --ink: #e6edf3; --paper: #0d1117; --quiet: #9da7b3; --line: #30363d; --allow: #6fdd8b;
    --deny: #da3633; --answered: #d29922; --unread: #8b949e; --moved: #a371f7; --bar: #58a6ff }
}
* { box-sizing: border-box }
body {
  margin: 0; background: var(--paper); color: var(--ink);
  font: 1rem/1.5 system-ui, sans-serif }
main { max-width: 76rem; margin: 0 auto; padding: 1rem }
h1 { font-size: 1.6rem; margin: .5rem 0 }
h2 { font-size: 1.25rem; margin: 2rem 0 .5rem }
h3 { font-size: 1rem; margin: 1rem 0 .25rem }
p { margin: .5rem 0; overflow-wrap: anywhere }
.quiet { color: var(--quiet) }
.trouble { border-left: .3rem solid var(--deny); padding: .25rem .75rem }
.figures { display: flex; flex-wrap: wrap; gap: .5rem 2rem; margin: 1rem 0 }
.figures div { display: flex; flex-direction: column }
.figures dd { margin: 0; font-size: 1.5rem; font-variant-numeric: tabular-nums }
.figures dt { color: var(--quiet); order: 2 }
.text { font-family: ui-monospace, monospace; font-size: .875rem; overflow-wrap: anywhere }
.wide { overflow-x: auto }
table { border-collapse: collapse; width: 100% }
th, td {
  padding: .3rem .5rem; text-align: left; vertical-align: top;
  border-bottom: 1px solid var(--line) }
th { font-weight: 600; white-space: nowrap }
.n { text-align: right; font-variant-numeric: tabular-nums; white-space: nowrap }
td.text { min-width: 12rem }
.bar { width: 16%; min-width: 4rem }
.bar svg { height: 1rem }
tr.never td { color: var(--quiet) }
svg { display: block; width: 100%; shape-rendering: crispEdges }
.strip svg { height: 4.5rem; border: 1px solid var(--line) }
.allow { fill: var(--allow) }
.deny { fill: var(--deny) }
.answered { fill: var(--answered) }
.unread { fill: var(--unread) }
.moved { fill: var(--moved) }
.stayed { fill: var(--line) }
.fill { fill: var(--bar) }
line {
  stroke: var(--ink); stroke-width: 2; vector-effect: non-scaling-stroke; stroke-dasharray: 4 3 }
.key {
  display: flex; flex-wrap: wrap; gap: .25rem 1.25rem; margin: .25rem 0; padding: 0;
  list-style: none; color: var(--quiet); font-size: .875rem }
.key svg {
  display: inline-block; width: .8rem; height: .8rem; vertical-align: middle;
  margin-right: .35rem }
ol.text { padding-left: 3rem }
@media (max-width: 40rem) {
  main { padding: .75rem }
  .figures { gap: .5rem 1.25rem }
  table, tbody, tr, td { display: block; width: 100% }
  thead { display: none }
  tr { border-bottom: 1px solid var(--line); padding: .4rem 0 }
  td { border: 0; padding: .1rem 0; display: flex; gap: .5rem }
  td::before {
    content: attr(data-label); color: var(--quiet); flex: 0 0 5rem; text-align: left;
    font: 1rem/1.5 system-ui, sans-serif }
  td.bar::before { content: none }
  td.bar { width: 100%; min-width: 0 }
  .bar svg { height: .5rem }
  td.n { text-align: left }
  td.text { min-width: 0 }
}
@media print {
  main { max-width: none; padding: 0 }
  section { break-inside: auto }
  tr, .strip { break-inside: avoid }
  h2, h3 { break-after: avoid }
  svg * { print-color-adjust: exact; -webkit-print-color-adjust: exact }
}
";
