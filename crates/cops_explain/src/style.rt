//! The texts that every picture has.

/// The colours, for light and for dark.
pub const STYLE: &str = "<style>\
.page{fill:#fff}\
text{fill:#0f172a}\
.small{fill:#475569;font-size:11px}\
.head{font-size:16px;font-weight:bold}\
.card text,.left text{text-anchor:middle}\
.lane{stroke:#cbd5e1}\
.card rect{fill:#fff;stroke:#475569;stroke-width:1.5}\
.left rect{fill:#fff;stroke:#94a3b8;stroke-dasharray:1 3}\
.newer rect{fill:#dcfce7;stroke:#15803d}\
.fault rect{fill:#fee2e2;stroke:#b91c1c;stroke-width:2.5}\
.returned rect{fill:#f1f5f9;stroke:#64748b;stroke-dasharray:4 3}\
.link{stroke:#1d4ed8;stroke-width:2;fill:none}\
.tip{fill:#1d4ed8}\
.back{stroke:#64748b;stroke-width:1.5;stroke-dasharray:5 4;fill:none}\
.backtip{fill:#64748b}\
@media (prefers-color-scheme:dark){\
.page{fill:#0f172a}\
text{fill:#f1f5f9}\
.small{fill:#cbd5e1}\
.lane{stroke:#334155}\
.card rect{fill:#1e293b;stroke:#94a3b8}\
.left rect{fill:#0f172a}\
.newer rect{fill:#14532d;stroke:#4ade80}\
.fault rect{fill:#7f1d1d;stroke:#f87171}\
.returned rect{fill:#1e293b;stroke:#94a3b8}\
.link{stroke:#60a5fa}\
.tip{fill:#60a5fa}\
.back{stroke:#94a3b8}\
.backtip{fill:#94a3b8}\
}</style>\n";

/// The tips of arrows.
pub const TIPS: &str = "<defs>\
<marker id=\"tip\" viewBox=\"0 0 10 10\" refX=\"9\" refY=\"5\" markerWidth=\"12\" markerHeight=\"12\" markerUnits=\"userSpaceOnUse\" orient=\"auto\">\
<path class=\"tip\" d=\"M0 0L10 5L0 10z\"/></marker>\
<marker id=\"backtip\" viewBox=\"0 0 10 10\" refX=\"9\" refY=\"5\" markerWidth=\"10\" markerHeight=\"10\" markerUnits=\"userSpaceOnUse\" orient=\"auto\">\
<path class=\"backtip\" d=\"M0 0L10 5L0 10z\"/></marker>\
</defs>\n";
